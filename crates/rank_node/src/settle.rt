ghost use Rattle.std.specs.Prelude.{◌≡◌, ◌<◌, length, true};
ghost use Rattle.rank_scripts.specs.Nodes.{has_all};
ghost use Rattle.rank_model.specs.Products.{Run, scripts};
ghost use Rattle.rank_node.specs.Positions.{passed_of, is_inspected, GoesTo};
ghost use Rattle.rank_node.specs.Waits.{letters_from, due_for, AreGiven, HaveAsks};

use crate::letters::asked_in;
use crate::stage::Stage;
use bern_base::{Items, Letter};

/// The stage at which a rank stops that has reached this one: it goes past each wait that it can pass.
pub(crate) fn settled(
    rank: u32,
    ranks: u32,
    given: &Items<Items<Letter>>,
    asks: &Items<Items<u32>>,
    stage: Stage,
) -> Stage
    ghost run: { Run }
    requires given { AreGiven run rank ranks given.now }
    requires asks { is_inspected stage ≡ true → HaveAsks run rank asks.now }
    requires requests { passed_of stage ≡ 1 → has_all (scripts run) rank (letters_from given.now) 0 ≡ true }
    ensures { GoesTo run rank (letters_from given.now) stage result }
{
    match stage {
        Stage::Request { to } => at_request(rank, ranks, given, to),
        Stage::AwaitRequests => at_request_wait(rank, ranks, given),
        Stage::Values { to } => next_values(rank, ranks, given, to),
        Stage::AwaitValues => at_values_wait(rank, given, asks),
        other => other,
    }
}

/// From the post of a Request to this rank or a later one.
fn at_request(rank: u32, ranks: u32, given: &Items<Items<Letter>>, from: u32) -> Stage
    ghost run: { Run }
    requires { AreGiven run rank ranks given.now }
    ensures { GoesTo run rank (letters_from given.now) (Stage.Request from) result }
{
    if from < ranks && from != rank {
        Stage::Request { to: from }
    } else if from < ranks && from + 1 < ranks {
        Stage::Request { to: from + 1 }
    } else {
        at_request_wait(rank, ranks, given)
    }
}

/// From the wait for Requests.
fn at_request_wait(rank: u32, ranks: u32, given: &Items<Items<Letter>>) -> Stage
    ghost run: { Run }
    requires { AreGiven run rank ranks given.now }
    ensures { GoesTo run rank (letters_from given.now) Stage.AwaitRequests result }
{
    if has_requests(rank, given) {
        next_values(rank, ranks, given, 0)
    } else {
        Stage::AwaitRequests
    }
}

/// From the wait for values.
fn at_values_wait(rank: u32, given: &Items<Items<Letter>>, asks: &Items<Items<u32>>) -> Stage
    ghost run: { Run }
    requires rank { rank < run.ranks }
    requires long { length given.now ≡ run.ranks }
    requires asks { HaveAsks run rank asks.now }
    ensures { GoesTo run rank (letters_from given.now) Stage.AwaitValues result }
{
    if has_values(rank, given, asks) {
        Stage::Outer
    } else {
        Stage::AwaitValues
    }
}

/// From the post of values to this rank or a later one.
fn next_values(rank: u32, ranks: u32, given: &Items<Items<Letter>>, from: u32) -> Stage
    ghost run: { Run }
    requires given { AreGiven run rank ranks given.now }
    requires requests { has_all (scripts run) rank (letters_from given.now) 0 ≡ true }
    ensures { GoesTo run rank (letters_from given.now) (Stage.Values from) result }
{
    for to in from..ranks {
        if to != rank && !asked_in(given.at(to as usize)).is_empty() {
            return Stage::Values { to };
        }
    }
    Stage::Inner
}

/// Whether the Request of each other rank was taken.
fn has_requests(rank: u32, given: &Items<Items<Letter>>) -> bool
    ghost run: { Run }
    requires rank { rank < run.ranks }
    requires long { length given.now ≡ run.ranks }
    ensures { result ≡ has_all (scripts run) rank (letters_from given.now) 0 }
{
    for from in 0..given.len() {
        if from != rank as usize && given.at(from).is_empty() {
            return false;
        }
    }
    true
}

/// Whether the values of each rank that owes some were taken.
fn has_values(rank: u32, given: &Items<Items<Letter>>, asks: &Items<Items<u32>>) -> bool
    ghost run: { Run }
    requires rank { rank < run.ranks }
    requires long { length given.now ≡ run.ranks }
    requires asks { HaveAsks run rank asks.now }
    ensures { result ≡ has_all (scripts run) rank (letters_from given.now) 1 }
{
    for from in 0..given.len() {
        if from != rank as usize && given.at(from).len() < letters_due(asks.at(from)) {
            return false;
        }
    }
    true
}

/// The number of letters due from a rank that owns these elements: its Request, and values where they are needed.
fn letters_due(elements: &Items<u32>) -> usize
    ensures { result ≡ due_for elements.now }
{
    if elements.is_empty() { 1 } else { 2 }
}
