ghost use Rattle.job_files.specs.Laws.{KeepsLimit, ReachesAll, StopsAtMissing, TriesArraysByTheirShape};

/// What stops for want of a file reaches that file, and what does not stop reaches every file. It does nothing; the laws
/// are its contract.
pub fn files_are_reached()
    ensures missing { StopsAtMissing }
    ensures all { ReachesAll }
{}

/// The entries of the matrices of all arrays keep the limit, F7, with what the arrays weigh without files. It does
/// nothing; the law is its contract.
pub fn matrices_keep_the_limit()
    ensures { KeepsLimit }
{}

/// The file of an array is tried by the rule of its shape, as `formats::check_shape` tells it: F1, and F2 where its format
/// lists diagonals. It does nothing; the law is its contract.
pub fn arrays_are_tried_by_their_shape()
    ensures { TriesArraysByTheirShape }
{}
