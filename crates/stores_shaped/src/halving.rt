ghost use Rattle.std.specs.Prelude.{◌≡◌, ℕ, ◌+◌, ◌-◌, ◌<◌, ◌≤◌, IfSome};
ghost use Rattle.format_model.specs.Levels.{bits};
ghost use Rattle.format_model.specs.Trees.{child_at};
ghost use Rattle.stores_packed.specs.Packed.{RisesBetween, placed};

use access_joins::Line;
use bern_base::Steps;
use std::sync::ledger::Ledger;

/// Lines of rising columns, one for each place of a row, whose columns are worked out or lie apart.
pub trait RisingLines {
    /// The number of lines.
    ghost lines: { Self → ℕ };

    /// Where a line begins, and where it ends.
    ghost first: { Self → ℕ → ℕ };

    ghost end: { Self → ℕ → ℕ };

    /// The column at a place of a line.
    ghost index: { Self → ℕ → ℕ → ℕ };

    /// The column at a place of a line, which begins at `from`.
    fn column(&self, row: u32, from: u32, place: u32) -> u64
        requires row { row < lines self.now }
        requires from { from ≡ first self.now row }
        requires order { from ≤ place }
        requires within { place < end self.now row }
        ensures { result ≡ index self.now row place };

    ghost rises: { (s : Self) (row : ℕ) → row < lines s → RisesBetween (index s row) (first s row) (end s row) };
}

/// The place of a column in a line, by halving: a step for each probe.
pub fn search<S: RisingLines, L: Ledger>(
    lines: &S,
    row: u32,
    line: Line,
    column: u64,
    steps: &mut Steps<L>,
) -> Option<u32>
    requires row { row < S.lines lines.now }
    requires from { line.from ≡ S.first lines.now row }
    requires to { line.to ≡ S.end lines.now row }
    ensures found { result ≡ child_at (placed (S.index lines.now row) line.from (line.to - line.from)) column }
    ensures within { IfSome result (λ place. place < line.to) }
    ensures cost { steps.new ≤ steps.old + bits (line.to - line.from) }
{
    let mut low = line.from;
    let mut high = line.to;
    'halving: while low < high {
        steps.tick();
        let middle = low + (high - low) / 2;
        let here = lines.column(row, line.from, middle);
        if here == column {
            return Some(middle);
        }
        if here < column {
            low = middle + 1;
        } else {
            high = middle;
        }
    }
    None
}
