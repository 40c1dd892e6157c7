ghost use Rattle.std.specs.Prelude.{◌≡◌, ◌<◌, ◌≤◌, ◌^◌, ◌+◌, ◌*◌, [], ◌∷◌, ◌++◌, ◌==◌, if◌then◌else◌, unsigned_abs, length, IfOk, OnOk};
ghost use Rattle.std.specs.List.{list_all, list_any};
ghost use Rattle.job_rules.specs.Sums.{IsSmall, item_limit, variable_of, constant_part, coefficient_part, constant_of, coefficient_of, agrees_at, same_form, is_within_at, is_within, variables_in, add_variable, affine_of};

use crate::items::{Item, Meaning};
use crate::names::Named;
use bern_base::{Items, MOST_COEFFICIENT, MOST_CONSTANT, MOST_ITEMS, NoMemory};
use std::alloc::Global;
use std::marker::Model;

/// A sum of few items.
#[derive(Drop)]
pub(crate) struct Sum {
    items: Items<Item>,
}

impl Model for Sum {
    ghost use Rattle.std.specs.Prelude.{List};
    ghost use Rattle.job_rules.specs.declared.items.Item.{Item};
    ghost use Rattle.job_rules.specs.Sums.{IsSmall};

    ghost Value = { List Item };

    ghost view = { λ s. s.items };

    ghost invariant = { λ s. IsSmall s.items };
}

impl Sum {
    pub(crate) fn new(items: Items<Item>) -> Sum
        requires { IsSmall items }
        ensures { result ≡ items }
    {
        Sum { items }
    }

    /// The sum of nothing. It takes no memory.
    pub(crate) fn empty(alloc: Global) -> Sum
        ensures { result ≡ [] }
    {
        Sum {
            items: Items::new(alloc),
        }
    }

    pub(crate) fn items(&self) -> &[Item]
        ensures { result.now ≡ self.now }
    {
        self.items.as_slice()
    }

    /// The sum of all its numbers.
    #[tactic(auto, unfolding(crate::specs::Sums::constant_of))]
    pub(crate) fn constant(&self) -> i128
        ensures value { result ≡ constant_of self.now }
        ensures small { unsigned_abs result < 2 ^ 67 }
    {
        let mut total = 0;
        for item in self.items.as_slice() {
            total += constant_part(item);
        }
        total
    }

    /// The sum of all multiples of a variable.
    #[tactic(auto, unfolding(crate::specs::Sums::coefficient_of))]
    pub(crate) fn coefficient(&self, variable: usize) -> i128
        ensures value { result ≡ coefficient_of variable self.now }
        ensures small { unsigned_abs result < 2 ^ 35 }
    {
        let mut total = 0;
        for item in self.items.as_slice() {
            total += coefficient_part(variable, item);
        }
        total
    }
}

impl Sum {
    /// Whether the constants are equal, and the coefficients of each variable: what J12 and J14 compare.
    #[tactic(auto, unfolding(crate::specs::Sums::same_form))]
    pub(crate) fn same_form(&self, other: &Sum) -> bool
        ensures { result ≡ same_form self.now other.now }
    {
        self.constant() == other.constant()
            && agree_on(self, other, self.items())
            && agree_on(self, other, other.items())
    }

    /// J15: whether the constant and the coefficients are within their limits.
    #[tactic(auto, unfolding(crate::specs::Sums::is_within))]
    pub(crate) fn is_within(&self) -> bool
        ensures { result ≡ is_within self.now }
    {
        self.constant().unsigned_abs() <= MOST_CONSTANT as u128 && are_within(self, self.items())
    }

    /// Its variables, each once.
    #[tactic(auto, unfolding(crate::specs::Sums::variables_in))]
    pub(crate) fn variables(&self, alloc: Global) -> Result<Items<usize>, NoMemory>
        ensures value { IfOk result (λ vars. vars ≡ variables_in self.now) }
        ensures few { IfOk result (λ vars. length vars ≤ MOST_ITEMS) }
    {
        let mut vars = Items::new(alloc);
        for item in self.items.as_slice() {
            add_variable(&mut vars, item)?;
        }
        Ok(vars)
    }
}

/// Appends the variable of an item, where it is not there yet.
fn add_variable(vars: &mut Items<usize>, item: &Item) -> Result<(), NoMemory>
    ensures added { OnOk result (vars.new ≡ add_variable vars.old item.now) }
    ensures few { OnOk result (length vars.new ≤ length vars.old + 1) }
{
    match variable(item) {
        None => Ok(()),
        Some(variable) => insert(vars, variable),
    }
}

fn insert(vars: &mut Items<usize>, variable: usize) -> Result<(), NoMemory>
    ensures added { OnOk result (vars.new ≡ if list_any (λ w. w == variable) vars.old then vars.old else vars.old ++ variable ∷ []) }
    ensures few { OnOk result (length vars.new ≤ length vars.old + 1) }
{
    if vars.as_slice().contains(&variable) {
        return Ok(());
    }
    vars.push(variable)
}

/// The variable that an item is a multiple of.
pub(crate) fn variable(item: &Item) -> Option<usize>
    ensures { result ≡ variable_of item.now.meaning }
{
    match item.meaning {
        Meaning::Name(Named::Variable(variable)) => Some(variable),
        _ => None,
    }
}

fn constant_part(item: &Item) -> i128
    requires { unsigned_abs item.now.number < item_limit item.now.meaning }
    ensures value { result ≡ constant_part item.now }
    ensures small { unsigned_abs result < 2 ^ 64 }
{
    match variable(item) {
        Some(_) => 0,
        None => item.number,
    }
}

fn coefficient_part(variable_: usize, item: &Item) -> i128
    requires { unsigned_abs item.now.number < item_limit item.now.meaning }
    ensures value { result ≡ coefficient_part variable_ item.now }
    ensures small { unsigned_abs result < 2 ^ 32 }
{
    match variable(item) {
        Some(other) if other == variable_ => item.number,
        _ => 0,
    }
}

fn agree_on(a: &Sum, b: &Sum, items: &[Item]) -> bool
    ensures { result ≡ list_all (agrees_at a.now b.now) items.now }
{
    items.iter().all(|item| agrees_at(a, b, item))
}

fn agrees_at(a: &Sum, b: &Sum, item: &Item) -> bool
    ensures { result ≡ agrees_at a.now b.now item.now }
{
    match variable(item) {
        Some(variable) => a.coefficient(variable) == b.coefficient(variable),
        None => true,
    }
}

fn are_within(sum: &Sum, items: &[Item]) -> bool
    ensures { result ≡ list_all (is_within_at sum.now) items.now }
{
    items.iter().all(|item| is_within_at(sum, item))
}

fn is_within_at(sum: &Sum, item: &Item) -> bool
    ensures { result ≡ is_within_at sum.now item.now }
{
    match variable(item) {
        Some(variable) => sum.coefficient(variable).unsigned_abs() <= MOST_COEFFICIENT as u128,
        None => true,
    }
}
