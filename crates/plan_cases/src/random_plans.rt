use crate::plan_list::{Listed, all_plans};
use crate::random_terms::{Draws, draw_term};
use join_plan::{can_schedule, schedule};
use loop_query::PlanStep;
use std::test::Fail;

/// How many of the drawn terms show something.
#[derive(Clone, Copy, Debug, Default, PartialEq, Eq)]
struct Counts {
    plans: u64,
    several: u64,
    ties: u64,
    later: u64,
    drive: u64,
    flat: u64,
    merge: u64,
    search: u64,
}

/// The first plan of least cost.
fn first_of_least(plans: &[Listed]) -> Option<&Listed> {
    let mut best: Option<&Listed> = None;
    for listed in plans {
        match best {
            Some(found) if found.cost <= listed.cost => {}
            _ => best = Some(listed),
        }
    }
    best
}

impl Counts {
    /// One term more, with these plans, of which `best` is the best.
    fn count(&mut self, plans: &[Listed], best: &Listed) {
        let equals = plans
            .iter()
            .filter(|listed| listed.cost == best.cost)
            .count();
        let steps = best.steps.as_slice();
        self.plans = self.plans.wrapping_add(plans.len() as u64);
        add(&mut self.several, plans.len() > 1);
        add(&mut self.ties, equals > 1);
        add(
            &mut self.later,
            plans.first().is_some_and(|first| first.cost != best.cost),
        );
        add(
            &mut self.drive,
            steps
                .iter()
                .any(|step| matches!(step, PlanStep::Drive { .. })),
        );
        add(
            &mut self.flat,
            steps
                .iter()
                .any(|step| matches!(step, PlanStep::DriveFlat { .. })),
        );
        add(
            &mut self.merge,
            steps
                .iter()
                .any(|step| matches!(step, PlanStep::Merge { .. })),
        );
        add(&mut self.search, best.searches);
    }
}

/// Adds one where something is so.
fn add(number: &mut u64, is: bool) {
    if is {
        *number = number.wrapping_add(1);
    }
}

#[test]
fn the_first_plan_of_least_cost_of_the_whole_list_is_chosen(rt: HostRuntime) -> Result<(), Fail> {
    let alloc = rt.alloc();
    let mut draws = Draws::new(24);
    let mut counts = Counts::default();
    for turn in 0..60 {
        let drawn = draw_term(alloc, &mut draws)?;
        if !can_schedule(&drawn.nest, &drawn.term, &drawn.stats) {
            return Err(Fail::from("a term that cannot be scheduled"));
        }
        let (plan, cost) = schedule(alloc, &drawn.nest, &drawn.term, &drawn.stats)?;
        let plans = all_plans(alloc, &drawn.nest, &drawn.term, &drawn.stats)?;
        let best = first_of_least(plans.as_slice()).ok_or("no plan")?;
        assert_eq!(&rt;
            plan.steps.as_slice(),
            best.steps.as_slice(),
            "the plan of term {turn}"
        );
        assert_eq!(&rt; cost, best.cost, "the cost of term {turn}");
        counts.count(plans.as_slice(), best);
    }
    let shown = Counts {
        plans: 1043,
        several: 60,
        ties: 16,
        later: 51,
        drive: 33,
        flat: 13,
        merge: 7,
        search: 49,
    };
    assert_eq!(&rt; counts, shown);
    Ok(())
}
