ghost use Rattle.std.specs.Prelude.{◌≤◌};
ghost use Rattle.bern_ports.specs.Causes.{Rose};

use crate::ports::Failed;

/// Counts a fault; the count stays at its last value once it is there.
pub fn fault(count: &mut u64) -> Failed
    ensures later { count.old ≤ count.new }
    ensures rose { Rose count.old count.new }
{
    *count = count.saturating_add(1);
    Failed
}
