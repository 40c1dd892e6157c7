ghost use Rattle.visit_cases.specs.Plans.{grid_way};
ghost use Rattle.std.specs.Prelude.{◌≡◌, ◌<◌, ◌≤◌, IsTrue, length, map};
ghost use Rattle.bern_base.specs.Affine.{IsPoint, IsWithin};
ghost use Rattle.format_model.specs.declared.limits.TheConstants.{MOST_INDEX};
ghost use Rattle.visits.specs.Ways.{Way, IsPlain, search_of, stride_in, stride_of};

use visits::{Route, Search, Step};

const NONE: &[Search] = &[];

/// The indices of V[3*i+j], each for both variables.
#[derive(Debug, Drop)]
pub struct GridRoute;

impl Route for GridRoute {
    ghost way = { λ r. grid_way };

    fn count(&self) -> u32 {
        1
    }

    fn step(&self, _depth: u32) -> Step {
        Step::Flat {
            reference: 0,
            first: 0,
            second: Some(1),
        }
    }

    fn low(&self, _var: u32) -> i64 {
        0
    }

    fn high(&self, var: u32) -> i64 {
        if var == 0 {
            return 3;
        }
        if var == 1 {
            return 3;
        }
        1
    }

    fn plain(&self, _depth: u32) -> bool {
        true
    }

    fn test(&self, _depth: u32, _point: &[i64; 4]) -> bool {
        true
    }

    fn searches(&self, _depth: u32) -> &[Search] {
        NONE
    }

    fn view(&self, _reference: u32) -> u32 {
        0
    }

    fn index(&self, _reference: u32, _level: u32, point: &[i64; 4]) -> i64 {
        point[0] + point[0] + point[0] + point[1]
    }

    fn base(&self, _reference: u32, _level: u32, _var: u32, _point: &[i64; 4]) -> i64 {
        0
    }

    fn slope(&self, _reference: u32, _level: u32, _var: u32) -> i64 {
        1
    }

    fn part(&self, _reference: u32, var: u32, _point: &[i64; 4], index: u64) -> Option<i64> {
        if var == 0 {
            return Some((index / 3) as i64);
        }
        Some((index % 3) as i64)
    }

    fn shift(
        &self,
        _left: u32,
        _left_level: u32,
        _right: u32,
        _right_level: u32,
        _var: u32,
        _point: &[i64; 4],
    ) -> i64 {
        0
    }
}
