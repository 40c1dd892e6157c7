ghost use Rattle.std.specs.Prelude.{ℕ, List};
ghost use Rattle.bern_base.specs.declared.job.Checked.{Checked};
ghost use Rattle.job_model.specs.Accepted.{IsAccepted};
ghost use Rattle.job_accept.specs.Axes.{OuterAxesAreOne, SplitAxesAreOne};
ghost use Rattle.job_accept.specs.Front.{AcceptsBytes, BytesHaveOneAnswer};
ghost use Rattle.job_accept.specs.Offsets.{OffsetsRise};
ghost use Rattle.job_accept.specs.Places.{PlacesStandAmongArrays};
ghost use Rattle.job_accept.specs.Variables.{NestsHaveVariables};

/// The law that bytes have one answer of [`take_job`](crate::take_job): one job, or one line and rule, and never both. It
/// does nothing.
pub fn bytes_have_one_answer()
    ensures { BytesHaveOneAnswer }
{}

/// The law that what bytes are accepted as keeps all rules: its numbers name items of its own lists, sizes and counts are
/// within their limits, and each nest stays inside its arrays. It does nothing.
pub fn accepted_bytes_keep_the_rules()
    ensures { (bytes : List ℕ) (job : Checked) → AcceptsBytes bytes job → IsAccepted job }
{}

/// The law that the offsets of each diagonal format rise strictly in what bytes are accepted as: a line with others has no
/// form. It does nothing.
pub fn offsets_of_diagonals_rise()
    ensures { OffsetsRise }
{}

/// The law that the outer level of each format of two levels is on rows or on columns in what bytes are accepted as: a line
/// with another has no form. It does nothing.
pub fn outer_axes_are_one()
    ensures { OuterAxesAreOne }
{}

/// The law that each array is split along its rows or along its columns in what bytes are accepted as: a line with another axis
/// has no form. It does nothing.
pub fn split_axes_are_one()
    ensures { SplitAxesAreOne }
{}

/// The law that each nest has a loop variable in what bytes are accepted as: a line with none has no form. It does nothing.
pub fn nests_have_variables()
    ensures { NestsHaveVariables }
{}

/// The law that each place was declared after some of the arrays in what bytes are accepted as: as many as stand before its line.
/// It does nothing.
pub fn places_stand_among_arrays()
    ensures { PlacesStandAmongArrays }
{}
