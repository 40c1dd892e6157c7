ghost use Rattle.std.specs.Prelude.{◌≡◌, ◌+◌, ◌<◌, ◌≤◌, suc, length, true};
ghost use Rattle.rank_scripts.specs.Nodes.{has_all, HasAllBefore};
ghost use Rattle.turn_model.specs.Runs.{Run, scripts, turns_of};
ghost use Rattle.turn_node.specs.Parts.{all_asks};
ghost use Rattle.turn_node.specs.Positions.{begin, is_inspected, passed_of, turn_of, GoesTo, IsComing};
ghost use Rattle.turn_node.specs.Progresses.{given_of, owes, HasMailAt, Uses};

use crate::due::is_due;
use crate::progress::Progress;
use crate::stage::Stage;

impl Progress {
    /// The stage at which a rank stops that has reached this one: it goes past each wait that it can pass.
    pub(crate) fn settled(&self, stage: Stage) -> Stage
        ghost run: { Run }
        requires mail { HasMailAt run self.now (turn_of run stage) }
        requires asks { is_inspected stage ≡ true → self.now.asks ≡ all_asks run self.now.rank }
        requires coming { IsComing run stage }
        requires past { HasAllBefore (scripts run) self.now.rank (given_of run self.now) (passed_of run stage) }
        ensures { GoesTo run self.now.rank (given_of run self.now) stage result }
    {
        match stage {
            Stage::Request { to } => self.at_request(to),
            Stage::AwaitRequests => self.at_request_wait(),
            Stage::Values { turn, to } => self.next_values(turn, to),
            Stage::AwaitValues { turn } => self.at_values_wait(turn),
            other => other,
        }
    }

    /// From the post of a Request to this rank or a later one.
    fn at_request(&self, from: u32) -> Stage
        ghost run: { Run }
        requires { HasMailAt run self.now 0 }
        ensures { GoesTo run self.now.rank (given_of run self.now) (Stage.Request from) result }
    {
        let ranks = self.asked.len() as u32;
        if from < ranks && from != self.rank {
            Stage::Request { to: from }
        } else if from < ranks && from + 1 < ranks {
            Stage::Request { to: from + 1 }
        } else {
            self.at_request_wait()
        }
    }

    /// From the wait for Requests.
    fn at_request_wait(&self) -> Stage
        ghost run: { Run }
        requires { HasMailAt run self.now 0 }
        ensures { GoesTo run self.now.rank (given_of run self.now) Stage.AwaitRequests result }
    {
        if self.has_requests() {
            self.begun(0)
        } else {
            Stage::AwaitRequests
        }
    }

    /// From the begin of a turn, or after the last one.
    pub(crate) fn begun(&self, turn: u32) -> Stage
        ghost run: { Run }
        requires mail { HasMailAt run self.now turn }
        requires requests { has_all (scripts run) self.now.rank (given_of run self.now) 0 ≡ true }
        requires turn { turn ≤ turns_of run }
        ensures { GoesTo run self.now.rank (given_of run self.now) (begin run turn) result }
    {
        if (turn as usize) < self.turns.len() {
            self.next_values(turn, 0)
        } else {
            Stage::Done
        }
    }

    /// From the post of values to this rank or a later one.
    fn next_values(&self, turn: u32, from: u32) -> Stage
        ghost run: { Run }
        requires mail { HasMailAt run self.now turn }
        requires requests { has_all (scripts run) self.now.rank (given_of run self.now) 0 ≡ true }
        requires turn { turn < turns_of run }
        ensures { GoesTo run self.now.rank (given_of run self.now) (Stage.Values turn from) result }
    {
        let nest = self.nest(turn);
        let ranks = self.asked.len() as u32;
        for to in from..ranks {
            if to != self.rank && is_due(self.asked.at(to as usize).sets.as_slice(), nest) {
                return Stage::Values { turn, to };
            }
        }
        Stage::Inner { turn }
    }

    /// From the wait for the values of a turn.
    fn at_values_wait(&self, turn: u32) -> Stage
        ghost run: { Run }
        requires mail { HasMailAt run self.now turn }
        requires asks { self.now.asks ≡ all_asks run self.now.rank }
        requires turn { turn < turns_of run }
        requires past { HasAllBefore (scripts run) self.now.rank (given_of run self.now) (suc turn) }
        ensures { GoesTo run self.now.rank (given_of run self.now) (Stage.AwaitValues turn) result }
    {
        if self.has_values(turn) {
            Stage::Outer { turn }
        } else {
            Stage::AwaitValues { turn }
        }
    }

    /// Whether the Request of each other rank was taken.
    fn has_requests(&self) -> bool
        ghost run: { Run }
        requires { HasMailAt run self.now 0 }
        ensures { result ≡ has_all (scripts run) self.now.rank (given_of run self.now) 0 }
    {
        for from in 0..self.taken.len() {
            if from != self.rank as usize && *self.taken.at(from) == 0 {
                return false;
            }
        }
        true
    }

    /// Whether the values of the turn were taken of each rank that owes some.
    fn has_values(&self, turn: u32) -> bool
        ghost run: { Run }
        requires mail { HasMailAt run self.now turn }
        requires asks { self.now.asks ≡ all_asks run self.now.rank }
        requires turn { turn < turns_of run }
        requires past { HasAllBefore (scripts run) self.now.rank (given_of run self.now) (suc turn) }
        ensures { result ≡ has_all (scripts run) self.now.rank (given_of run self.now) (suc turn) }
    {
        let nest = self.nest(turn);
        let ranks = self.asks.len() as u32;
        for from in 0..ranks {
            if self.mail.is_empty(from) && self.owes(from, nest) {
                return false;
            }
        }
        true
    }

    /// Whether another rank owes values for the nest.
    fn owes(&self, from: u32, nest: u32) -> bool
        requires { from < length self.now.asks }
        ensures { result ≡ owes self.now.rank from nest self.now.asks }
    {
        from != self.rank && is_due(self.asks.at(from as usize).sets.as_slice(), nest)
    }

    /// Drops the letters of a turn.
    pub(crate) fn drop_used(&mut self, turn: u32)
        ghost run: { Run }
        requires mail { HasMailAt run self.old turn }
        requires asks { self.old.asks ≡ all_asks run self.old.rank }
        requires turn { turn < turns_of run }
        ensures { Uses run self.old self.new turn }
    {
        let nest = self.nest(turn);
        let ranks = self.asks.len() as u32;
        for from in 0..ranks {
            if self.owes(from, nest) {
                self.mail.drop_front(from);
            }
        }
    }
}
