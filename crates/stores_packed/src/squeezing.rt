ghost use Rattle.std.specs.Prelude.{◌≡◌, ◌++◌, ◌∷◌, [], ◌-◌, ◌^◌, ◌<◌, ◌≤◌, IfOk, length, map, slice_index};
ghost use Rattle.std.specs.List.{filter, range_with_len};
ghost use Rattle.stores_packed.specs.Lines.{is_wide};

use bern_base::NoMemory;
use std::alloc::Global;

/// The lines that have a place: their numbers, and where they begin.
#[derive(Debug, Drop)]
pub struct Squeezed {
    pub outers: Vec<u32>,
    pub starts: Vec<u32>,
}

/// How many lines have a place.
fn count_wide(from: &[u32]) -> usize
    requires { 0 < length from.now }
    ensures { result ≡ length (filter (is_wide from.now) (range_with_len 0 (length from.now - 1))) }
{
    let mut count = 0;
    'counting: for line in 0..from.len() - 1 {
        if from[line] < from[line + 1] {
            count += 1;
        }
    }
    count
}

/// Leaves out the lines without a place, which begin where they end. The last start is the end of the last line. Both lists
/// have exactly the room that they need.
pub fn squeeze(alloc: Global, from: &[u32]) -> Result<Squeezed, NoMemory>
    requires some { 0 < length from.now }
    requires few { length from.now ≤ 2 ^ 32 }
    ensures outers { IfOk result (λ q. q.outers.items ≡ filter (is_wide from.now) (range_with_len 0 (length from.now - 1))) }
    ensures starts { IfOk result (λ q.
        q.starts.items ≡ map (slice_index from.now) q.outers.items ++ slice_index from.now (length from.now - 1) ∷ []) }
{
    let lines = from.len() - 1;
    let wide = count_wide(from);
    let mut outers = Vec::with_capacity(alloc, wide)?;
    let mut starts = Vec::with_capacity(alloc, wide + 1)?;
    'keeping: for line in 0..lines {
        if from[line] < from[line + 1] {
            outers.push(line as u32)?;
            starts.push(from[line])?;
        }
    }
    starts.push(from[lines])?;
    Ok(Squeezed { outers, starts })
}
