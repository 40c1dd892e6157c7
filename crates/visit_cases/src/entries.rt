ghost use Rattle.visit_cases.specs.Plans.{entries_way};
ghost use Rattle.std.specs.Prelude.{◌≡◌, ◌<◌, ◌≤◌, IsTrue, length, map};
ghost use Rattle.bern_base.specs.Affine.{IsPoint, IsWithin};
ghost use Rattle.format_model.specs.declared.limits.TheConstants.{MOST_INDEX};
ghost use Rattle.visits.specs.Ways.{Way, IsPlain, level_index, search_of, stride_in, stride_of};

use visits::{Route, Search, Step};

const NONE: &[Search] = &[];

/// The rows of A[i,j], and then the columns of each.
#[derive(Debug, Drop)]
pub struct EntriesRoute;

impl Route for EntriesRoute {
    ghost way = { λ r. entries_way };

    fn count(&self) -> u32 {
        2
    }

    fn step(&self, depth: u32) -> Step {
        if depth == 0 {
            Step::Drive {
                reference: 0,
                level: 0,
                var: 0,
            }
        } else {
            Step::Drive {
                reference: 0,
                level: 1,
                var: 1,
            }
        }
    }

    fn low(&self, _var: u32) -> i64 {
        0
    }

    fn high(&self, var: u32) -> i64 {
        if var == 0 {
            return 3;
        }
        if var == 1 {
            return 3;
        }
        1
    }

    fn plain(&self, _depth: u32) -> bool {
        true
    }

    fn test(&self, _depth: u32, _point: &[i64; 4]) -> bool {
        true
    }

    fn searches(&self, _depth: u32) -> &[Search] {
        NONE
    }

    fn view(&self, _reference: u32) -> u32 {
        0
    }

    fn index(&self, _reference: u32, level: u32, point: &[i64; 4]) -> i64 {
        point[level as usize]
    }

    fn base(&self, _reference: u32, _level: u32, _var: u32, _point: &[i64; 4]) -> i64 {
        0
    }

    fn slope(&self, _reference: u32, _level: u32, _var: u32) -> i64 {
        1
    }

    fn part(&self, _reference: u32, _var: u32, _point: &[i64; 4], _index: u64) -> Option<i64> {
        None
    }

    fn shift(
        &self,
        _left: u32,
        _left_level: u32,
        _right: u32,
        _right_level: u32,
        _var: u32,
        _point: &[i64; 4],
    ) -> i64 {
        0
    }
}
