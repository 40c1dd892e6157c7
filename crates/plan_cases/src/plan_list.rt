//! All plans of a term, made step by step as they are defined: the list that the scheduler never makes.

use bern_base::{Affine, Axis, Items, LevelStat, Nest, Ref, Span, Stats};
use loop_query::{PlanStep, Term};
use std::alloc::Global;
use std::test::Fail;

/// The four variables with their bits in a set.
const VARIABLES: [(u32, u32); 4] = [(0, 1), (1, 2), (2, 4), (3, 8)];

/// The set of all four.
const ALL: u32 = 15;

/// The variables that count for a subscript.
fn variables_of(form: &Affine) -> u32 {
    let mut set = 0;
    for (factor, (_, bit)) in form.coefficients().iter().zip(VARIABLES) {
        if *factor != 0 {
            set |= bit;
        }
    }
    set
}

/// Which variables are bound, as a set, and how many levels of each sparse reference are located.
#[derive(Clone, Copy)]
struct Known {
    bound: u32,
    located: [u32; 4],
}

impl Known {
    fn locate(&mut self, reference: u32) {
        if let Some(level) = self.located.get_mut(reference as usize) {
            *level = level.saturating_add(1);
        }
    }
}

/// The next level of a sparse reference.
#[derive(Clone, Copy)]
struct Next<'a> {
    reference: u32,
    level: u32,
    stat: LevelStat,
    subscripts: &'a Ref,
}

impl<'a> Next<'a> {
    /// The variables for which the row waits.
    fn row(&self, bound: u32) -> u32 {
        variables_of(&self.subscripts.row) & !bound
    }

    fn col(&self, bound: u32) -> u32 {
        variables_of(&self.subscripts.col) & !bound
    }

    fn is_searched(&self, bound: u32) -> bool {
        match self.stat.axis {
            Axis::Row => self.row(bound) == 0,
            Axis::Col => self.col(bound) == 0,
            Axis::Both => self.row(bound) == 0 && self.col(bound) == 0,
        }
    }

    fn is_driven(&self, bound: u32, bit: u32) -> bool {
        match self.stat.axis {
            Axis::Row => self.row(bound) == bit,
            Axis::Col => self.col(bound) == bit,
            Axis::Both => false,
        }
    }

    /// Whether it can be driven in the order of the variable's values.
    fn is_merged(&self, bound: u32, var: u32, bit: u32) -> bool {
        let factors = match self.stat.axis {
            Axis::Row => self.subscripts.row.coefficients(),
            Axis::Col => self.subscripts.col.coefficients(),
            Axis::Both => return false,
        };
        let is_one = factors.get(var as usize).copied() == Some(1);
        is_one && self.stat.ordered && self.is_driven(bound, bit)
    }

    /// The variables that the elements of a level of both axes bind, where each subscript is solved for at most one.
    fn flat(&self, bound: u32) -> Option<u32> {
        if self.stat.axis != Axis::Both {
            return None;
        }
        let row = self.row(bound);
        let col = self.col(bound | row);
        if row.count_ones() > 1 || col.count_ones() > 1 || row | col == 0 {
            return None;
        }
        Some(row | col)
    }
}

/// What searches weigh together, and whether there are any.
#[derive(Clone, Copy)]
struct Searches {
    weight: u128,
    any: bool,
}

/// A step that is ready: the indices that it is offered and keeps below one binding, and the variables that it binds.
#[derive(Clone, Copy)]
struct Ready {
    step: PlanStep,
    offers: u128,
    keeps: u128,
    binds: u32,
}

/// The first steps of a plan and what they cost, how many bindings come to the next one, and what is known then.
#[derive(Drop)]
pub struct Listed {
    pub steps: Vec<PlanStep>,
    pub cost: u128,
    /// Whether there is a search in it.
    pub searches: bool,
    many: u128,
    known: Known,
}

#[derive(Clone, Copy)]
struct Lists<'a> {
    nest: &'a Nest,
    term: &'a Term,
    stats: &'a Items<Stats>,
}

impl<'a> Lists<'a> {
    fn next(&self, known: &Known, reference: u32) -> Option<Next<'a>> {
        let subscripts = self.term.sparse.get(reference as usize)?;
        let level = *known.located.get(reference as usize)?;
        let stats = self.stats.get(subscripts.array as usize)?;
        let stat = *stats.levels.get(level as usize)?;
        Some(Next {
            reference,
            level,
            stat,
            subscripts,
        })
    }

    /// Every reference in order searches its next level as long as it can.
    fn search(&self, known: &mut Known) -> Searches {
        let mut weight = 0_u128;
        let mut any = false;
        // A format has at most two levels.
        for reference in [0, 0, 1, 1, 2, 2, 3, 3] {
            if let Some(next) = self.next(known, reference) {
                if next.is_searched(known.bound) {
                    weight = weight.saturating_add(u128::from(next.stat.weight));
                    any = true;
                    known.locate(reference);
                }
            }
        }
        Searches { weight, any }
    }

    fn push_ranges(&self, known: &Known, ready: &mut Vec<Ready>) -> Result<(), Fail> {
        for (var, bit) in VARIABLES {
            if known.bound & bit == 0 {
                let size = self.nest.vars.get(var as usize).map_or(1, values_of);
                ready.push(Ready {
                    step: PlanStep::Range { var },
                    offers: size,
                    keeps: size,
                    binds: bit,
                })?;
            }
        }
        Ok(())
    }

    fn push_drives(
        &self,
        known: &Known,
        reference: u32,
        ready: &mut Vec<Ready>,
    ) -> Result<(), Fail> {
        let Some(next) = self.next(known, reference) else {
            return Ok(());
        };
        let estimate = u128::from(next.stat.estimate);
        for (var, bit) in VARIABLES {
            if next.is_driven(known.bound, bit) {
                let level = next.level;
                ready.push(Ready {
                    step: PlanStep::Drive {
                        reference,
                        level,
                        var,
                    },
                    offers: estimate,
                    keeps: estimate,
                    binds: bit,
                })?;
            }
        }
        if let Some(binds) = next.flat(known.bound) {
            ready.push(Ready {
                step: PlanStep::DriveFlat { reference },
                offers: estimate,
                keeps: estimate,
                binds,
            })?;
        }
        Ok(())
    }

    fn push_merges(
        &self,
        known: &Known,
        left: u32,
        right: u32,
        ready: &mut Vec<Ready>,
    ) -> Result<(), Fail> {
        let (Some(first), Some(second)) = (self.next(known, left), self.next(known, right)) else {
            return Ok(());
        };
        let first_estimate = u128::from(first.stat.estimate);
        let second_estimate = u128::from(second.stat.estimate);
        for (var, bit) in VARIABLES {
            if first.is_merged(known.bound, var, bit) && second.is_merged(known.bound, var, bit) {
                ready.push(Ready {
                    step: PlanStep::Merge {
                        left,
                        left_level: first.level,
                        right,
                        right_level: second.level,
                        var,
                    },
                    offers: first_estimate.saturating_add(second_estimate),
                    keeps: first_estimate.min(second_estimate),
                    binds: bit,
                })?;
            }
        }
        Ok(())
    }

    /// The steps that are ready, in order.
    fn ready(&self, alloc: Global, known: &Known) -> Result<Vec<Ready>, Fail> {
        let mut ready = Vec::new(alloc);
        self.push_ranges(known, &mut ready)?;
        for reference in 0..4 {
            self.push_drives(known, reference, &mut ready)?;
        }
        for (left, right) in [(0, 1), (0, 2), (0, 3), (1, 2), (1, 3), (2, 3)] {
            self.push_merges(known, left, right, &mut ready)?;
        }
        Ok(ready)
    }

    /// A plan with one step more.
    fn followed(&self, alloc: Global, listed: &Listed, ready: Ready) -> Result<Listed, Fail> {
        let mut known = listed.known;
        known.bound |= ready.binds;
        match ready.step {
            PlanStep::Range { .. } => {}
            PlanStep::Drive { reference, .. } | PlanStep::DriveFlat { reference } => {
                known.locate(reference);
            }
            PlanStep::Merge { left, right, .. } => {
                known.locate(left);
                known.locate(right);
            }
        }
        let searches = self.search(&mut known);
        let many = listed.many.saturating_mul(ready.keeps);
        let mut steps = Vec::new(alloc);
        for step in &listed.steps {
            steps.push(*step)?;
        }
        steps.push(ready.step)?;
        Ok(Listed {
            steps,
            cost: listed
                .cost
                .saturating_add(listed.many.saturating_mul(ready.offers))
                .saturating_add(many.saturating_mul(searches.weight)),
            searches: listed.searches || searches.any,
            many,
            known,
        })
    }

    /// In place of each plan that is not whole those with one step more, in order.
    fn extended(&self, alloc: Global, plans: Vec<Listed>) -> Result<Vec<Listed>, Fail> {
        let mut all = Vec::new(alloc);
        for listed in plans {
            if listed.known.bound == ALL {
                all.push(listed)?;
            } else {
                for ready in self.ready(alloc, &listed.known)? {
                    all.push(self.followed(alloc, &listed, ready)?)?;
                }
            }
        }
        Ok(all)
    }
}

fn values_of(span: &Span) -> u128 {
    let values = span.hi.saturating_sub(span.lo).max(0);
    u128::try_from(values).unwrap_or(0)
}

/// The variables that a nest of so many does not have.
fn unused(variables: usize) -> u32 {
    match variables {
        0 => 15,
        1 => 14,
        2 => 12,
        3 => 8,
        _ => 0,
    }
}

/// All plans of a term, each with its cost.
pub fn all_plans(
    alloc: Global,
    nest: &Nest,
    term: &Term,
    stats: &Items<Stats>,
) -> Result<Vec<Listed>, Fail> {
    let lists = Lists { nest, term, stats };
    let mut known = Known {
        bound: unused(nest.vars.len()),
        located: [0, 0, 0, 0],
    };
    let searches = lists.search(&mut known);
    let nothing = Listed {
        steps: Vec::new(alloc),
        cost: searches.weight,
        searches: searches.any,
        many: 1,
        known,
    };
    let mut plans = vec![in alloc; nothing]?;
    for _ in 0..4 {
        plans = lists.extended(alloc, plans)?;
    }
    Ok(plans)
}
