ghost use Rattle.bern_base.specs.declared.job.Checked.{Checked};
ghost use Rattle.bern_base.specs.declared.raw.JobText.{JobText};
ghost use Rattle.job_model.specs.Accepted.{IsAccepted};
ghost use Rattle.job_rules.specs.First.{Accepts, HasOneAnswer, IsReadableText};
ghost use Rattle.job_rules.specs.Points.{LeavesAtPoints};

/// The law that a text has one answer: one job, or one line and rule, and never both. It does nothing.
pub fn a_text_has_one_answer()
    ensures { (text : JobText) → HasOneAnswer text }
{}

/// The law that an accepted job keeps all rules, in the words of its meaning: its numbers name items of its own lists,
/// sizes and counts are within their limits, and each nest stays inside its arrays. It does nothing.
pub fn accepted_texts_keep_the_rules()
    ensures { (text : JobText) (job : Checked) → IsReadableText text → Accepts text job → IsAccepted job }
{}

/// The law that J10 is about the points of the box: over a box that is not empty, the least or the greatest value of a
/// subscript leaves its extent exactly where the subscript as written does so at some point. It does nothing.
pub fn subscripts_leave_at_points()
    ensures { LeavesAtPoints }
{}
