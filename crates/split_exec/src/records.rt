ghost use Rattle.std.specs.Prelude.{◌≡◌, ◌*◌, ◌%◌, ◌^◌, ◌<◌, length, map};
ghost use Rattle.job_model.specs.Values.{product_of};
ghost use Rattle.split_exec.specs.Hits.{Grow};
ghost use Rattle.split_exec.specs.Recorded.{CanRead, HasValue, leaves_of, record_adds, slot_value, slots_value, source};

use crate::delta::Delta;
use crate::inbox::Inbox;
use access_joins::Cells;
use bern_base::{Items, Val};
use node_prog::{Recorded, Slot};
use term_model::PlannedTerm;

/// The value to which a slot leads: of an element of the rank's own part of an array, or of one that came.
fn taken<V: Cells>(array: u32, slot: &Slot, stores: &Items<V>, inbox: &Inbox) -> Val
    requires { let f = source V.tree V.grid stores.now inbox.now.sets in HasValue f array slot.now }
    ensures { let f = source V.tree V.grid stores.now inbox.now.sets in result ≡ slot_value f array slot.now }
{
    match *slot {
        Slot::Own { element } => stores.at(array as usize).cell(element),
        Slot::Came { set, place } => {
            let came = inbox.sets.at(set as usize);
            *came.values.at(place as usize)
        }
    }
}

/// The factor of a term times its dense references at a recorded point.
fn slot_product<V: Cells>(
    planned: &PlannedTerm,
    recorded: &Recorded,
    stores: &Items<V>,
    inbox: &Inbox,
) -> Val
    requires { let f = source V.tree V.grid stores.now inbox.now.sets in CanRead f planned.now.term recorded.now }
    ensures { let f = source V.tree V.grid stores.now inbox.now.sets in
        result % 2 ^ 64 ≡ slots_value f planned.now.term recorded.now % 2 ^ 64 }
{
    let mut product = planned.term.factor;
    'references: for at in 0..planned.term.dense.len() {
        let reference = planned.term.dense.at(at);
        let value = taken(reference.array, &recorded.slots[at], stores, inbox);
        product = product.mul(value);
    }
    product
}

/// A value times those of a term's sparse references at a recorded point.
fn with_leaves<V: Cells>(
    planned: &PlannedTerm,
    recorded: &Recorded,
    stores: &Items<V>,
    inbox: &Inbox,
    value: Val,
) -> Val
    requires { let f = source V.tree V.grid stores.now inbox.now.sets in CanRead f planned.now.term recorded.now }
    ensures { let f = source V.tree V.grid stores.now inbox.now.sets in
        result % 2 ^ 64 ≡ value * product_of (leaves_of f planned.now.term recorded.now) % 2 ^ 64 }
{
    let mut product = value;
    'references: for at in 0..planned.term.sparse.len() {
        let view = stores.at(planned.term.sparse.at(at).array as usize);
        product = product.mul(view.value(recorded.leaves[at]));
    }
    product
}

/// Adds the value of a term at a recorded point to the sum of the point's target.
pub(crate) fn add_record<V: Cells>(
    planned: &PlannedTerm,
    recorded: &Recorded,
    stores: &Items<V>,
    inbox: &Inbox,
    delta: &mut Delta,
)
    requires can { let f = source V.tree V.grid stores.now inbox.now.sets in CanRead f planned.now.term recorded.now }
    requires target { recorded.now.target < length delta.old }
    ensures { let f = source V.tree V.grid stores.now inbox.now.sets in
        Grow delta.old delta.new (λ k. record_adds f planned.now.term k recorded.now) }
{
    let product = slot_product(planned, recorded, stores, inbox);
    let value = with_leaves(planned, recorded, stores, inbox, product);
    delta.add(recorded.target, value);
}
