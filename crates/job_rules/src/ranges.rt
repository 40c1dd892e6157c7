ghost use Rattle.std.specs.Prelude.{◌≡◌, ◌<◌, ◌≤◌, ◌^◌, ◌||◌, unsigned_abs, pos, ◌-ℤ◌, ◌*ℤ◌, int_le, length, map, IfOk};
ghost use Rattle.job_rules.specs.Sums.{IsSmallRange, variables_in, coefficient_of, range_at, least_part, greatest_part, least, greatest};
ghost use Rattle.job_rules.specs.Nests.{is_box_empty, is_many, leaves_extent, range_of};

use crate::resolved::ResolvedSpan;
use crate::sums::Sum;
use bern_base::{Items, MOST_ITEMS, NoMemory};
use std::alloc::Global;
use std::marker::Model;

/// The values of a loop variable: `lo` to `hi - 1`.
#[derive(Clone, Copy, Debug, PartialEq, Eq)]
pub(crate) struct Range {
    pub(crate) lo: i128,
    pub(crate) hi: i128,
}

/// The values of the loop variables of a nest, by their numbers.
#[derive(Drop)]
pub(crate) struct Ranges {
    ranges: Items<Range>,
}

impl Model for Ranges {
    ghost use Rattle.std.specs.Prelude.{List};
    ghost use Rattle.std.specs.List.{All};
    ghost use Rattle.job_rules.specs.declared.ranges.Range.{Range};
    ghost use Rattle.job_rules.specs.Sums.{IsSmallRange};

    ghost Value = { List Range };

    ghost view = { λ r. r.ranges };

    ghost invariant = { λ r. All IsSmallRange r.ranges };
}

impl Ranges {
    /// The values of each variable, from its bounds.
    pub(crate) fn of(alloc: Global, spans: &[ResolvedSpan]) -> Result<Ranges, NoMemory>
        ensures { IfOk result (λ ranges. ranges ≡ map range_of spans.now) }
    {
        let mut ranges = Items::from_vec(Vec::with_capacity(alloc, spans.len())?);
        for span in spans {
            ranges.push(range_of(span))?;
        }
        Ok(Ranges { ranges })
    }

    /// The values of a variable; one that is not there has the value 0.
    fn at(&self, variable: usize) -> Range
        ensures value { result ≡ range_at self.now variable }
        ensures small { IsSmallRange result }
    {
        match self.ranges.get(variable) {
            Some(range) => *range,
            None => Range { lo: 0, hi: 1 },
        }
    }

    /// The least value of a sum over a box that is not empty; `variables` are those of the sum.
    #[tactic(auto, unfolding(crate::specs::Sums::least))]
    fn least(&self, sum: &Sum, variables: &[usize]) -> i128
        requires own { variables.now ≡ variables_in sum.now }
        requires few { length variables.now ≤ MOST_ITEMS }
        ensures { result ≡ least self.now sum.now }
    {
        let mut total = sum.constant();
        for variable in variables {
            total += least_part(sum.coefficient(*variable), self.at(*variable));
        }
        total
    }

    /// The greatest value of a sum over a box that is not empty; `variables` are those of the sum.
    #[tactic(auto, unfolding(crate::specs::Sums::greatest))]
    fn greatest(&self, sum: &Sum, variables: &[usize]) -> i128
        requires own { variables.now ≡ variables_in sum.now }
        requires few { length variables.now ≤ MOST_ITEMS }
        ensures { result ≡ greatest self.now sum.now }
    {
        let mut total = sum.constant();
        for variable in variables {
            total += greatest_part(sum.coefficient(*variable), self.at(*variable));
        }
        total
    }

    /// J10: whether a subscript leaves an extent of this size somewhere in the box, which is not empty.
    #[tactic(auto, unfolding(crate::specs::Nests::leaves_extent))]
    pub(crate) fn leaves_extent(
        &self,
        alloc: Global,
        extent: u32,
        sum: &Sum,
    ) -> Result<bool, NoMemory>
        ensures { IfOk result (λ leaves. leaves ≡ leaves_extent self.now extent sum.now) }
    {
        let variables = sum.variables(alloc)?;
        let least = self.least(sum, variables.as_slice());
        let greatest = self.greatest(sum, variables.as_slice());
        Ok(least < 0 || i128::from(extent) <= greatest)
    }

    /// Whether some variable has no value.
    #[tactic(auto, unfolding(crate::specs::Nests::is_box_empty))]
    pub(crate) fn is_empty(&self) -> bool
        ensures { result ≡ is_box_empty self.now }
    {
        self.ranges
            .as_slice()
            .iter()
            .any(|range| range.hi <= range.lo)
    }

    /// Whether a variable has two values or more.
    pub(crate) fn is_many(&self, variable: usize) -> bool
        ensures { result ≡ is_many self.now variable }
    {
        let range = self.at(variable);
        range.hi - range.lo >= 2
    }

    pub(crate) fn as_slice(&self) -> &[Range]
        ensures { result.now ≡ self.now }
    {
        self.ranges.as_slice()
    }
}

fn least_part(coefficient: i128, range: Range) -> i128
    requires coefficient { unsigned_abs coefficient < 2 ^ 35 }
    requires range { IsSmallRange range }
    ensures value { result ≡ least_part coefficient range }
    ensures small { unsigned_abs result < 2 ^ 103 }
{
    if coefficient < 0 {
        product(coefficient, last(range))
    } else {
        product(coefficient, range.lo)
    }
}

fn greatest_part(coefficient: i128, range: Range) -> i128
    requires coefficient { unsigned_abs coefficient < 2 ^ 35 }
    requires range { IsSmallRange range }
    ensures value { result ≡ greatest_part coefficient range }
    ensures small { unsigned_abs result < 2 ^ 103 }
{
    if coefficient < 0 {
        product(coefficient, range.lo)
    } else {
        product(coefficient, last(range))
    }
}

/// The last value of a variable that has one.
fn last(range: Range) -> i128
    requires { IsSmallRange range }
    ensures value { result ≡ range.hi -ℤ pos 1 }
    ensures small { unsigned_abs result ≤ 2 ^ 67 }
{
    range.hi - 1
}

fn product(coefficient: i128, value: i128) -> i128
    requires coefficient { unsigned_abs coefficient < 2 ^ 35 }
    requires value { unsigned_abs value ≤ 2 ^ 67 }
    ensures value { result ≡ coefficient *ℤ value }
    ensures small { unsigned_abs result < 2 ^ 103 }
{
    coefficient * value
}

fn range_of(span: &ResolvedSpan) -> Range
    ensures value { result ≡ range_of span.now }
    ensures small { IsSmallRange result }
{
    Range {
        lo: span.lo.constant(),
        hi: span.hi.constant(),
    }
}
