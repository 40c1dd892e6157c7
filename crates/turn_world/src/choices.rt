ghost use Rattle.std.specs.Prelude.{◌≡◌, ◌+◌, ◌<◌, ◌≤◌, suc, length, true, false, IfOk, OnOk};
ghost use Rattle.rank_scripts.specs.Worlds.{start, done, left};
ghost use Rattle.turn_model.specs.Runs.{Run, events, scripts};
ghost use Rattle.turn_world.specs.Worlds.{world_of, steps_left, IsWorld, IsAmong, AreAtEnd};

use crate::event::{Event, StepError};
use crate::world::World;
use bern_base::{Items, NoMemory, Steps};
use std::alloc::Global;
use std::sync::ledger::Ledger;
use turn_node::Part;

/// Lets a world of new nodes go through all its events, in an order that the seed chooses, and answers the done world and
/// the number of events. It takes no more steps than the nodes may take.
///
/// Event n, from 0, is the one at place `(x(n+1) / 2^33) mod count` of those that are enabled, where `x(0)` is the seed and
/// `x(n+1) = x(n) * 6364136223846793005 + 1442695040888963407` modulo 2^64.
pub fn replay<P: Part + Drop, L: Ledger>(
    alloc: Global,
    world: World<P>,
    seed: u64,
    steps: &mut Steps<L>,
) -> Result<(World<P>, u64), NoMemory>
    ghost run: { Run }
    requires fit { IsWorld P.stands run world }
    requires start { world_of run world ≡ start (scripts run) }
    ensures fit { IfOk result (λ end. IsWorld P.stands run end.0) }
    ensures done { IfOk result (λ end. done (scripts run) (world_of run end.0) ≡ true) }
    ensures end { IfOk result (λ end. AreAtEnd P.stands run end.0.nodes end.0.boxes) }
    ensures cost { IfOk result (λ end. steps.new + steps_left run end.0.nodes ≤ steps.old + steps_left run world.nodes) }
    ensures events { IfOk result (λ end. end.1 ≡ events run) }
{
    let mut world = world;
    let mut choice = seed;
    let mut count = 0;
    'events: while !world.done() {
        choice = next_choice(choice);
        match next_event(alloc, &mut world, choice, steps) {
            Ok(()) => {}
            Err(error) => return Err(error),
        }
        count += 1;
    }
    Ok((world, count))
}

fn next_choice(choice: u64) -> u64 {
    choice
        .wrapping_mul(6_364_136_223_846_793_005)
        .wrapping_add(1_442_695_040_888_963_407)
}

/// Lets one of the enabled events happen.
fn next_event<P: Part + Drop, L: Ledger>(
    alloc: Global,
    world: &mut World<P>,
    choice: u64,
    steps: &mut Steps<L>,
) -> Result<(), NoMemory>
    ghost run: { Run }
    requires fit { IsWorld P.stands run world.old }
    requires goes_on { done (scripts run) (world_of run world.old) ≡ false }
    ensures fit { OnOk result (IsWorld P.stands run world.new) }
    ensures left { OnOk result (suc (left (scripts run) (world_of run world.new)) ≡ left (scripts run) (world_of run world.old)) }
    ensures cost { OnOk result (steps.new + steps_left run world.new.nodes ≤ steps.old + steps_left run world.old.nodes) }
{
    let events = match world.enabled(alloc) {
        Ok(events) => events,
        Err(error) => return Err(error),
    };
    let event = chosen(&events, choice);
    match world.step(alloc, event, steps) {
        Ok(()) => Ok(()),
        Err(StepError::NoMemory) => Err(NoMemory),
        Err(StepError::NotEnabled) => unreachable!(),
    }
}

fn chosen(events: &Items<Event>, choice: u64) -> Event
    requires { 0 < length events.now }
    ensures { IsAmong result events.now }
{
    *events.at((choice >> 33) as usize % events.len())
}
