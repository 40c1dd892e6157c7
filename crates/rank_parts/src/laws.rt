//! The laws of dealt parts. Each function does nothing: its contract is the law.

ghost use Rattle.rank_parts.specs.Placing.{PlacedLinesArePlaced};

/// The places that `rank_places` makes are places of the job at each rank, and those of its files where these are told.
pub fn placed_lines_are_placed()
    ensures { PlacedLinesArePlaced }
{}
