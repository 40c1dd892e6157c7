ghost use Rattle.std.specs.Prelude.{◌≡◌, ◌+◌, ◌≤◌, filter, IfOk, OnOk, OnErr};
ghost use Rattle.turn_model.specs.Runs.{all_values, is_for};
ghost use Rattle.turn_node.specs.Parts.{At, IsCell, IsValue, MayApply, MaySend, Turns, all_asks, next};
ghost use Rattle.turn_node.specs.Positions.{New, Phase, Ready, Summed};

use crate::mail::Mail;
use bern_base::{Items, Needs, NoMemory, Steps, Val};
use std::alloc::Global;
use std::sync::ledger::Ledger;

/// A rank's part of the arrays, and the passes over its points: the engine of a node.
///
/// `stands part at phase` says that the part is that of a rank of a run before a turn, and how far it has come: whether it has found
/// what the rank needs, and whether it holds the sums of the turn's inner points.
pub trait Part {
    ghost stands: { Self → At → Phase → Type 0 };

    /// Finds what the rank needs of each rank, by owner, for all nests. After want of memory the part is as before.
    fn inspect<L: Ledger>(
        &mut self,
        alloc: Global,
        ranks: u32,
        steps: &mut Steps<L>,
    ) -> Result<Items<Needs>, NoMemory>
        requires { (at : At) × (stands self.old at New × (at.turn ≡ 0 × ranks ≡ at.run.ranks)) }
        ensures ok { (at : At) → stands self.old at New → ranks ≡ at.run.ranks → OnOk result (stands self.new at Ready) }
        ensures asks { (at : At) → stands self.old at New → ranks ≡ at.run.ranks →
            IfOk result (λ asks. asks ≡ all_asks at.run at.rank) }
        ensures err { OnErr result (self.new ≡ self.old) }
        ensures cost { (at : At) → stands self.old at New → ranks ≡ at.run.ranks →
            steps.new ≤ steps.old + at.run.budget.inspect at.rank };

    /// The values, before the turn, of the elements of the sets for the turn's nest, set after set.
    fn values(&self, alloc: Global, nest: u32, asked: &Needs) -> Result<Items<Val>, NoMemory>
        requires { (at : At) × (stands self.now at Ready × MaySend at nest asked.now) }
        ensures { (at : At) → stands self.now at Ready → MaySend at nest asked.now →
            IfOk result (λ values. values ≡ all_values (at.run.state at.turn) (filter (is_for nest) asked.now.sets)) };

    /// Sums over the points of the turn that read only what the rank owns. After want of memory the part is as before.
    fn inner<L: Ledger>(
        &mut self,
        alloc: Global,
        nest: u32,
        steps: &mut Steps<L>,
    ) -> Result<(), NoMemory>
        requires { (at : At) × (stands self.old at Ready × Turns at nest) }
        ensures ok { (at : At) → stands self.old at Ready → Turns at nest → OnOk result (stands self.new at Summed) }
        ensures err { OnErr result (self.new ≡ self.old) }
        ensures cost { (at : At) → stands self.old at Ready → Turns at nest →
            steps.new ≤ steps.old + at.run.budget.inner at.turn at.rank };

    /// Sums over the other points of the turn, with the values in the first letter of each rank that owes some, and applies
    /// the sums. After want of memory the part is as before.
    fn outer<L: Ledger>(
        &mut self,
        alloc: Global,
        nest: u32,
        asks: &Items<Needs>,
        mail: &Mail,
        steps: &mut Steps<L>,
    ) -> Result<(), NoMemory>
        requires { (at : At) × (stands self.old at Summed × MayApply at nest asks.now mail.now) }
        ensures ok { (at : At) → stands self.old at Summed → MayApply at nest asks.now mail.now →
            OnOk result (stands self.new (next at) Ready) }
        ensures err { OnErr result (self.new ≡ self.old) }
        ensures cost { (at : At) → stands self.old at Summed → MayApply at nest asks.now mail.now →
            steps.new ≤ steps.old + at.run.budget.outer at.turn at.rank };

    /// The value of an element of an array that is stored whole, by its number in the rank's part.
    fn cell(&self, array: u32, element: u32) -> Val
        requires { (at : At) × ((phase : Phase) × (stands self.now at phase × IsCell at array element)) }
        ensures { (at : At) (phase : Phase) → stands self.now at phase → IsCell at array element → IsValue at array element result };
}
