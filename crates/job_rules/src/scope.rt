ghost use Rattle.std.specs.Prelude.{◌≡◌, ◌<◌, ◌≤◌, ◌^◌, ◌*ℤ◌, pos, unsigned_abs, IfOk, map};
ghost use Rattle.job_rules.specs.State.{extent_size};
ghost use Rattle.std.specs.List.{All};
ghost use Rattle.job_rules.specs.Sums.{item_limit};
ghost use Rattle.job_rules.specs.Looked.{IsReadable, IsReadableRef, subscript, signed, named_in, meaning_in, item_of, sum_of, ref_of, span_of, guard_of, variables_of};

use crate::items::{Item, Meaning};
use crate::names::{Named, Names};
use crate::resolved::{ResolvedGuard, ResolvedRef, ResolvedSpan};
use crate::sums::Sum;
use bern_base::{
    ExtentDecl, Items, MOST_SUM_NUMBER, NoMemory, RawGuard, RawItem, RawRef, RawSum, RawVar, Text,
};
use std::alloc::Global;
use std::marker::Model;

/// The names of variables, each once, numbered in order.
#[tactic(auto, unfolding(crate::specs::Looked::variables_of))]
pub(crate) fn variables<'a>(alloc: Global, vars: &'a [RawVar]) -> Result<Names<'a>, NoMemory>
    ensures { IfOk result (λ names. names ≡ variables_of vars.now) }
{
    let mut names = Names::new(alloc);
    for var in vars {
        let name = var.name.as_bytes();
        if names.find(name).is_none() {
            let number = names.len();
            names.add(name, Named::Variable(number))?;
        }
    }
    Ok(names)
}

/// What the names of a nest may stand for: what is declared above it, and its variables.
#[derive(Drop)]
pub(crate) struct NestScope<'s, 'a> {
    pub(crate) names: &'s Names<'a>,
    pub(crate) variables: &'s Names<'a>,
    pub(crate) extents: &'s [ExtentDecl],
}

impl<'s, 'a> Model for NestScope<'s, 'a> {
    ghost use Rattle.job_rules.specs.Looked.{Scope};

    ghost Value = { Scope };

    ghost view = { λ s. record { names = s.names.now; variables = s.variables.now; extents = s.extents.now } };
}

impl<'s, 'a> NestScope<'s, 'a> {
    fn named(&self, name: &[u8]) -> Option<Named>
        ensures { result ≡ named_in self.now name.now }
    {
        match self.names.find(name) {
            Some(what) => Some(what),
            None => self.variables.find(name),
        }
    }

    fn meaning(&self, name: &Option<Text>) -> Meaning
        ensures { result ≡ meaning_in self.now name.now }
    {
        match name {
            None => Meaning::Number,
            Some(name) => match self.named(name.as_bytes()) {
                Some(what) => Meaning::Name(what),
                None => Meaning::Unknown,
            },
        }
    }

    /// The size of an extent by its number.
    fn size(&self, extent: u32) -> u32
        ensures { result ≡ extent_size self.now.extents extent }
    {
        match self.extents.get(extent as usize) {
            Some(decl) => decl.size,
            None => 0,
        }
    }

    #[tactic(auto, unfolding(crate::specs::Looked::item_of))]
    fn item(&self, item: &RawItem) -> Item
        requires { item.now.number ≤ MOST_SUM_NUMBER }
        ensures value { result ≡ item_of self.now item.now }
        ensures small { unsigned_abs result.number < item_limit result.meaning }
    {
        let meaning = self.meaning(&item.name);
        let number = signed(item.minus, item.number);
        match meaning {
            // An extent stands for its size.
            Meaning::Name(Named::Extent(extent)) => Item {
                number: scaled(number, self.size(extent)),
                meaning,
            },
            _ => Item { number, meaning },
        }
    }

    /// A sum with its names looked up.
    #[tactic(auto, unfolding(crate::specs::Looked::sum_of))]
    pub(crate) fn sum(&self, alloc: Global, sum: &RawSum) -> Result<Sum, NoMemory>
        requires { IsReadable sum.now }
        ensures { IfOk result (λ items. items ≡ sum_of self.now sum.now) }
    {
        let mut items = Items::from_vec(Vec::with_capacity(alloc, sum.items.len())?);
        for item in sum.items.as_slice() {
            items.push(self.item(item))?;
        }
        Ok(Sum::new(items))
    }

    #[tactic(auto, unfolding(crate::specs::Looked::span_of))]
    fn span(&self, alloc: Global, var: &RawVar) -> Result<ResolvedSpan, NoMemory>
        requires { IsReadable var.now.lo × IsReadable var.now.hi }
        ensures { IfOk result (λ span. span ≡ span_of self.now var.now) }
    {
        let lo = self.sum(alloc, &var.lo)?;
        let hi = self.sum(alloc, &var.hi)?;
        Ok(ResolvedSpan { lo, hi })
    }

    #[tactic(auto, unfolding(crate::specs::Looked::guard_of))]
    fn guard(&self, alloc: Global, guard: &RawGuard) -> Result<ResolvedGuard, NoMemory>
        requires { IsReadable guard.now.left × IsReadable guard.now.right }
        ensures { IfOk result (λ resolved. resolved ≡ guard_of self.now guard.now) }
    {
        let left = self.sum(alloc, &guard.left)?;
        let right = self.sum(alloc, &guard.right)?;
        Ok(ResolvedGuard { left, right })
    }

    /// A reference with its names looked up.
    #[tactic(auto, unfolding(crate::specs::Looked::ref_of))]
    pub(crate) fn reference(
        &self,
        alloc: Global,
        reference: &RawRef,
    ) -> Result<ResolvedRef, NoMemory>
        requires { IsReadableRef reference.now }
        ensures { IfOk result (λ resolved. resolved ≡ ref_of self.now reference.now) }
    {
        let array = self.named(reference.name.as_bytes());
        let row = self.subscript(alloc, reference, 0)?;
        let col = self.subscript(alloc, reference, 1)?;
        Ok(ResolvedRef {
            array,
            subs: reference.subs.len(),
            row,
            col,
        })
    }

    /// The subscript at a place; one that is not there is 0.
    fn subscript(&self, alloc: Global, reference: &RawRef, place: usize) -> Result<Sum, NoMemory>
        requires { IsReadableRef reference.now }
        ensures { IfOk result (λ sum. sum ≡ sum_of self.now (subscript reference.now place)) }
    {
        match reference.subs.get(place) {
            Some(sum) => self.sum(alloc, sum),
            None => Ok(Sum::empty(alloc)),
        }
    }

    /// The bounds of each variable.
    pub(crate) fn spans(
        &self,
        alloc: Global,
        vars: &[RawVar],
    ) -> Result<Items<ResolvedSpan>, NoMemory>
        requires { All (λ var. IsReadable var.lo × IsReadable var.hi) vars.now }
        ensures { IfOk result (λ spans. spans ≡ map (span_of self.now) vars.now) }
    {
        let mut spans = Items::from_vec(Vec::with_capacity(alloc, vars.len())?);
        for var in vars {
            spans.push(self.span(alloc, var)?)?;
        }
        Ok(spans)
    }

    /// The sides of each guard.
    pub(crate) fn guards(
        &self,
        alloc: Global,
        guards: &[RawGuard],
    ) -> Result<Items<ResolvedGuard>, NoMemory>
        requires { All (λ guard. IsReadable guard.left × IsReadable guard.right) guards.now }
        ensures { IfOk result (λ resolved. resolved ≡ map (guard_of self.now) guards.now) }
    {
        let mut resolved = Items::from_vec(Vec::with_capacity(alloc, guards.len())?);
        for guard in guards {
            resolved.push(self.guard(alloc, guard)?)?;
        }
        Ok(resolved)
    }
}

fn signed(minus: bool, number: u64) -> i128
    requires { number ≤ MOST_SUM_NUMBER }
    ensures value { result ≡ signed minus number }
    ensures small { unsigned_abs result < 2 ^ 32 }
{
    if minus {
        -(number as i128)
    } else {
        number as i128
    }
}

fn scaled(number: i128, size: u32) -> i128
    requires { unsigned_abs number < 2 ^ 32 }
    ensures value { result ≡ number *ℤ pos size }
    ensures small { unsigned_abs result < 2 ^ 64 }
{
    number * size as i128
}
