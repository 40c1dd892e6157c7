ghost use Rattle.visit_cases.specs.Plans.{pair_way};
ghost use Rattle.std.specs.Prelude.{◌≡◌, ◌<◌, ◌≤◌, IsTrue, length, map};
ghost use Rattle.bern_base.specs.Affine.{IsPoint, IsWithin};
ghost use Rattle.format_model.specs.declared.limits.TheConstants.{MOST_INDEX};
ghost use Rattle.visits.specs.Ways.{Way, IsPlain, search_of, stride_in, stride_of};

use visits::{Route, Search, Step};

const NONE: &[Search] = &[];

/// The rows of X[i] and Y[i+1] merged.
#[derive(Debug, Drop)]
pub struct PairRoute;

impl Route for PairRoute {
    ghost way = { λ r. pair_way };

    fn count(&self) -> u32 {
        1
    }

    fn step(&self, _depth: u32) -> Step {
        Step::Merge {
            left: 0,
            left_level: 0,
            right: 1,
            right_level: 0,
            var: 0,
        }
    }

    fn low(&self, _var: u32) -> i64 {
        0
    }

    fn high(&self, var: u32) -> i64 {
        if var == 0 { 6 } else { 1 }
    }

    fn plain(&self, _depth: u32) -> bool {
        true
    }

    fn test(&self, _depth: u32, _point: &[i64; 4]) -> bool {
        true
    }

    fn searches(&self, _depth: u32) -> &[Search] {
        NONE
    }

    fn view(&self, reference: u32) -> u32 {
        reference
    }

    fn index(&self, reference: u32, _level: u32, point: &[i64; 4]) -> i64 {
        point[0] + reference as i64
    }

    fn base(&self, reference: u32, _level: u32, _var: u32, _point: &[i64; 4]) -> i64 {
        reference as i64
    }

    fn slope(&self, _reference: u32, _level: u32, _var: u32) -> i64 {
        1
    }

    fn part(&self, _reference: u32, _var: u32, _point: &[i64; 4], _index: u64) -> Option<i64> {
        None
    }

    fn shift(
        &self,
        _left: u32,
        _left_level: u32,
        _right: u32,
        _right_level: u32,
        _var: u32,
        _point: &[i64; 4],
    ) -> i64 {
        1
    }
}
