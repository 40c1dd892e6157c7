ghost use Rattle.job_text.specs.Job.{HasOneForm, HasOneMeaning, JobsAreShallow};

/// The law that the grammar gives a text one form at most. It does nothing.
pub fn a_text_has_one_form()
    ensures { HasOneForm }
{}

/// The law that bytes have one meaning as a job. It does nothing.
pub fn bytes_have_one_meaning()
    ensures { HasOneMeaning }
{}

/// The law that in each nest of a job expressions stand at most 17 levels deep in one another: the whole one, and 16 pairs of
/// parentheses. It does nothing.
pub fn jobs_are_shallow()
    ensures { JobsAreShallow }
{}
