ghost use Rattle.std.specs.Prelude.{◌≡◌, ◌+◌, ◌<◌, ◌≤◌, ℕ, true, false, length, slice_index_or, [], ◌∷◌, map, IfOk, OnOk, OnErr, IsErrOf, IsTrue, ◌↔◌};
ghost use Rattle.rank_scripts.specs.Acts.{at_work, at_post, at_end};
ghost use Rattle.rank_scripts.specs.Worlds.{Works, Posts, Takes, can, start, done};
ghost use Rattle.turn_model.specs.Runs.{IsRun, Run, scripts};
ghost use Rattle.turn_node.specs.NodeStates.{allowance, rank_in, HasPosted};
ghost use Rattle.turn_world.specs.Worlds.{node_in, world_of, event_of, is_work, is_post, is_end, events_of, enabled_events, steps_left, AddsEnabled, AreAtEnd, HasHappened, IsPosted, IsRank, IsStart, IsWorld};

use crate::boxes::Boxes;
use crate::event::{Event, StepError};
use bern_base::{Items, NoMemory, Steps};
use std::alloc::Global;
use std::sync::ledger::Ledger;
use turn_node::{Node, Part, Want};

fn is_work(want: Want) -> bool
    ensures { result ≡ is_work want }
{
    matches!(want, Want::Work)
}

fn is_end(want: Want) -> bool
    ensures { result ≡ is_end want }
{
    matches!(want, Want::Done)
}

fn is_post(want: Want) -> bool
    ensures { result ≡ is_post want }
{
    matches!(want, Want::Post { .. })
}

/// The nodes of a run and the letters in flight between them.
///
/// Its calls are spoken of over a run that contracts alone see. `IsWorld` is what each call needs of a world and keeps.
#[derive(Drop)]
pub struct World<P> {
    nodes: Items<Node<P>>,
    boxes: Boxes,
}

impl<P: Part + Drop> World<P> {
    /// The world of these nodes, one for each rank and all new, with nothing in flight.
    pub fn new(alloc: Global, nodes: Items<Node<P>>) -> Result<World<P>, NoMemory>
        ghost run: { Run }
        requires run { IsRun run }
        requires nodes { IsStart P.stands run nodes }
        ensures fit { IfOk result (λ w. IsWorld P.stands run w) }
        ensures start { IfOk result (λ w. world_of run w ≡ start (scripts run)) }
        ensures nodes { IfOk result (λ w. w.nodes ≡ nodes) }
    {
        let boxes = Boxes::new(alloc, nodes.len() as u32)?;
        Ok(World { nodes, boxes })
    }

    /// The nodes, by rank.
    pub fn nodes(&self) -> &Items<Node<P>>
        ensures { result.now ≡ self.now.nodes }
    {
        &self.nodes
    }

    fn wants_work(&self, rank: u32) -> bool
        ghost run: { Run }
        requires { IsWorld P.stands run self.now }
        ensures { result ≡ can (scripts run) (world_of run self.now) (Works rank) }
    {
        match self.nodes.get(rank as usize) {
            Some(node) => is_work(node.want()),
            None => false,
        }
    }

    fn wants_post(&self, rank: u32) -> bool
        ghost run: { Run }
        requires { IsWorld P.stands run self.now }
        ensures { result ≡ can (scripts run) (world_of run self.now) (Posts rank) }
    {
        match self.nodes.get(rank as usize) {
            Some(node) => is_post(node.want()),
            None => false,
        }
    }

    fn can_take(&self, rank: u32, from: u32) -> bool
        ghost run: { Run }
        requires { IsWorld P.stands run self.now }
        ensures { result ≡ can (scripts run) (world_of run self.now) (Takes rank from) }
    {
        let ranks = self.nodes.len();
        (rank as usize) < ranks && (from as usize) < ranks && !self.boxes.is_empty(from, rank)
    }

    fn is_done(&self, rank: u32) -> bool
        ghost run: { Run }
        requires fit { IsWorld P.stands run self.now }
        requires rank { rank < run.ranks }
        ensures { result ≡ at_end (node_in run self.now.nodes rank).todo }
    {
        is_end(self.nodes.at(rank as usize).want())
    }

    /// Whether every rank is done. Each part of the arrays then stands after the last turn, and every box is empty.
    pub fn done(&self) -> bool
        ghost run: { Run }
        requires { IsWorld P.stands run self.now }
        ensures done { result ≡ done (scripts run) (world_of run self.now) }
        ensures end { IsTrue result → AreAtEnd P.stands run self.now.nodes self.now.boxes }
    {
        let ranks = self.nodes.len() as u32;
        for rank in 0..ranks {
            if !self.is_done(rank) {
                return false;
            }
        }
        true
    }

    /// The events that are enabled, by rank, and then work, post, and takes by sender.
    pub fn enabled(&self, alloc: Global) -> Result<Items<Event>, NoMemory>
        ghost run: { Run }
        requires { IsWorld P.stands run self.now }
        ensures { IfOk result (λ events. map event_of events ≡ enabled_events run (world_of run self.now)) }
    {
        let ranks = self.nodes.len() as u32;
        let mut events = Items::new(alloc);
        for rank in 0..ranks {
            match self.push_events(rank, ranks, &mut events) {
                Ok(()) => {}
                Err(error) => return Err(error),
            }
        }
        Ok(events)
    }

    fn push_events(&self, rank: u32, ranks: u32, events: &mut Items<Event>) -> Result<(), NoMemory>
        ghost run: { Run }
        requires fit { IsWorld P.stands run self.now }
        requires ranks { ranks ≡ run.ranks }
        ensures { OnOk result (AddsEnabled run self.now (events_of run.ranks rank) events.old events.new) }
    {
        match self.push_enabled(Event::Work { rank }, events) {
            Ok(()) => {}
            Err(error) => return Err(error),
        }
        match self.push_enabled(Event::Post { rank }, events) {
            Ok(()) => {}
            Err(error) => return Err(error),
        }
        for from in 0..ranks {
            match self.push_enabled(Event::Take { rank, from }, events) {
                Ok(()) => {}
                Err(error) => return Err(error),
            }
        }
        Ok(())
    }

    /// Appends an event if it is enabled.
    fn push_enabled(&self, event: Event, events: &mut Items<Event>) -> Result<(), NoMemory>
        ghost run: { Run }
        requires { IsWorld P.stands run self.now }
        ensures { OnOk result (AddsEnabled run self.now (event_of event ∷ []) events.old events.new) }
    {
        if self.is_enabled(event) {
            events.push(event)
        } else {
            Ok(())
        }
    }

    fn is_enabled(&self, event: Event) -> bool
        ghost run: { Run }
        requires { IsWorld P.stands run self.now }
        ensures { result ≡ can (scripts run) (world_of run self.now) (event_of event) }
    {
        match event {
            Event::Work { rank } => self.wants_work(rank),
            Event::Post { rank } => self.wants_post(rank),
            Event::Take { rank, from } => self.can_take(rank, from),
        }
    }

    /// Lets an event happen. `NotEnabled` comes exactly where it is not enabled. After either refusal the world is as
    /// before.
    ///
    /// The steps that it takes and those that the nodes may still take are no more than they might take before.
    pub fn step<L: Ledger>(
        &mut self,
        alloc: Global,
        event: Event,
        steps: &mut Steps<L>,
    ) -> Result<(), StepError>
        ghost run: { Run }
        requires { IsWorld P.stands run self.old }
        ensures ok { OnOk result (HasHappened P.stands run (event_of event) self.old self.new) }
        ensures cost { OnOk result (steps.new + steps_left run self.new.nodes ≤ steps.old + steps_left run self.old.nodes) }
        ensures refused { IsErrOf result StepError.NotEnabled ↔ (can (scripts run) (world_of run self.old) (event_of event) ≡ false) }
        ensures err { OnErr result (self.new ≡ self.old) }
    {
        if !self.is_enabled(event) {
            return Err(StepError::NotEnabled);
        }
        match self.happen(alloc, event, steps) {
            Ok(()) => Ok(()),
            Err(_) => Err(StepError::NoMemory),
        }
    }

    fn happen<L: Ledger>(
        &mut self,
        alloc: Global,
        event: Event,
        steps: &mut Steps<L>,
    ) -> Result<(), NoMemory>
        ghost run: { Run }
        requires fit { IsWorld P.stands run self.old }
        requires enabled { can (scripts run) (world_of run self.old) (event_of event) ≡ true }
        ensures ok { OnOk result (HasHappened P.stands run (event_of event) self.old self.new) }
        ensures cost { OnOk result (steps.new + steps_left run self.new.nodes ≤ steps.old + steps_left run self.old.nodes) }
        ensures err { OnErr result (self.new ≡ self.old) }
    {
        match event {
            Event::Work { rank } => self.work(alloc, rank, steps),
            Event::Post { rank } => self.post(alloc, rank),
            Event::Take { rank, from } => self.take(alloc, rank, from),
        }
    }

    fn work<L: Ledger>(
        &mut self,
        alloc: Global,
        rank: u32,
        steps: &mut Steps<L>,
    ) -> Result<(), NoMemory>
        ghost run: { Run }
        requires fit { IsWorld P.stands run self.old }
        requires enabled { can (scripts run) (world_of run self.old) (Works rank) ≡ true }
        ensures ok { OnOk result (HasHappened P.stands run (Works rank) self.old self.new) }
        ensures cost { OnOk result (steps.new + steps_left run self.new.nodes ≤ steps.old + steps_left run self.old.nodes) }
        ensures err { OnErr result (self.new ≡ self.old) }
    {
        let mut nodes = std::mem::replace(&mut self.nodes, Items::new(alloc)).into_vec();
        let done = nodes[rank as usize].work(alloc, steps);
        self.nodes = Items::from_vec(nodes);
        done
    }

    fn post(&mut self, alloc: Global, rank: u32) -> Result<(), NoMemory>
        ghost run: { Run }
        requires fit { IsWorld P.stands run self.old }
        requires enabled { can (scripts run) (world_of run self.old) (Posts rank) ≡ true }
        ensures ok { OnOk result (HasHappened P.stands run (Posts rank) self.old self.new) }
        ensures allowance { OnOk result (steps_left run self.new.nodes ≡ steps_left run self.old.nodes) }
        ensures err { OnErr result (self.new ≡ self.old) }
    {
        let mut nodes = std::mem::replace(&mut self.nodes, Items::new(alloc)).into_vec();
        let done = post_letter(&mut nodes[rank as usize], &mut self.boxes, alloc, rank);
        self.nodes = Items::from_vec(nodes);
        done
    }

    fn take(&mut self, alloc: Global, rank: u32, from: u32) -> Result<(), NoMemory>
        ghost run: { Run }
        requires fit { IsWorld P.stands run self.old }
        requires enabled { can (scripts run) (world_of run self.old) (Takes rank from) ≡ true }
        ensures ok { OnOk result (HasHappened P.stands run (Takes rank from) self.old self.new) }
        ensures allowance { OnOk result (steps_left run self.new.nodes ≡ steps_left run self.old.nodes) }
        ensures err { OnErr result (self.new ≡ self.old) }
    {
        let mut nodes = std::mem::replace(&mut self.nodes, Items::new(alloc)).into_vec();
        let done = self.boxes.deliver(from, rank, &mut nodes[rank as usize]);
        self.nodes = Items::from_vec(nodes);
        done
    }
}

/// Puts the letter that a node posts in flight, and moves the node on.
fn post_letter<P: Part + Drop>(
    node: &mut Node<P>,
    boxes: &mut Boxes,
    alloc: Global,
    rank: u32,
) -> Result<(), NoMemory>
    ghost run: { Run }
    requires node { IsRank P.stands run rank node.old }
    requires post { at_post (rank_in run node.old).todo ≡ true }
    requires row { rank < length boxes.old }
    requires column { (to : ℕ) → to < run.ranks → to < length (slice_index_or boxes.old rank []) }
    ensures node { OnOk result (HasPosted P.stands run node.old node.new) }
    ensures allowance { OnOk result (allowance run node.new ≡ allowance run node.old) }
    ensures boxes { OnOk result (IsPosted run rank node.old boxes.old boxes.new) }
    ensures err { OnErr result (node.new ≡ node.old) }
    ensures kept { OnErr result (boxes.new ≡ boxes.old) }
{
    match node.want() {
        Want::Post { to } => {
            let letter = match node.letter(alloc) {
                Ok(letter) => letter,
                Err(error) => return Err(error),
            };
            match boxes.push(rank, to, letter) {
                Ok(()) => {
                    node.posted();
                    Ok(())
                }
                Err(error) => Err(error),
            }
        }
        _ => unreachable!(),
    }
}
