ghost use Rattle.std.specs.Prelude.{◌≡◌, ◌++◌, ◌<◌, ◌≤◌, ◌+◌, ◌-◌, ◌^◌, ℕ, if◌then◌else◌, List, [], OnOk, IfOk, drop, length, slice_get};
ghost use Rattle.std.specs.List.{flat_map, range_with_len};
ghost use Rattle.std.specs.Option.{option_copied};
ghost use Rattle.join_plan.specs.PlanText.{array_name, axis_name, axis_of_ref, bound_after, flat_variables, level_name, numbered_text, plan_text, reference_name, step_line, steps_text, term_line, terms_text, unused, variable_word};
ghost use Rattle.join_plan.specs.Progress.{Marks};
ghost use Rattle.term_model.specs.Plans.{waiting};

use crate::progress::with_mark;
use crate::waiting::{is_waiting, marked};
use bern_base::{Affine, Axis, Checked, Items, Nest, NoMemory, Text};
use itoa::Buffer;
use loop_query::{PlanStep, PlannedTerm, Plans, Term, level_axis};
use std::alloc::Global;

fn append_variable(nest: &Nest, var: u32, out: &mut Text) -> Result<(), NoMemory>
    ensures { OnOk result (out.new ≡ out.old ++ variable_word nest.now var) }
{
    out.append(b" ")?;
    match nest.vars.get(var as usize) {
        Some(span) => out.append(span.name.as_bytes()),
        None => Ok(()),
    }
}

fn append_array(job: &Checked, term: &Term, reference: u32, out: &mut Text) -> Result<(), NoMemory>
    ensures { OnOk result (out.new ≡ out.old ++ array_name job.now (slice_get term.now.sparse reference)) }
{
    let Some(found) = term.sparse.get(reference as usize) else {
        return Ok(());
    };
    match job.arrays.get(found.array as usize) {
        Some(array) => out.append(array.name.as_bytes()),
        None => Ok(()),
    }
}

fn append_reference(
    job: &Checked,
    term: &Term,
    reference: u32,
    out: &mut Text,
) -> Result<(), NoMemory>
    ensures { OnOk result (out.new ≡ out.old ++ reference_name job.now term.now reference) }
{
    let mut digits = Buffer::new();
    out.append(digits.format(u64::from(reference) + 1).as_bytes())?;
    out.append(b":")?;
    append_array(job, term, reference, out)
}

/// The axis of a level of a reference's array.
fn axis_of(job: &Checked, term: &Term, reference: u32, level: u32) -> Option<Axis>
    ensures { axis_name result ≡ axis_of_ref job.now (slice_get term.now.sparse reference) level }
{
    let found = term.sparse.get(reference as usize)?;
    let array = job.arrays.get(found.array as usize)?;
    let format = job.formats.get(array.format as usize)?;
    level_axis(&format.shape, level)
}

fn append_level(
    job: &Checked,
    term: &Term,
    reference: u32,
    level: u32,
    out: &mut Text,
) -> Result<(), NoMemory>
    ensures { OnOk result (out.new ≡ out.old ++ level_name job.now term.now reference level) }
{
    append_reference(job, term, reference, out)?;
    out.append(b".")?;
    match axis_of(job, term, reference, level) {
        Some(Axis::Row) => out.append(b"row"),
        Some(Axis::Col) => out.append(b"col"),
        _ => Ok(()),
    }
}

/// Appends a variable, or nothing.
fn append_where(nest: &Nest, var: u32, is: bool, out: &mut Text) -> Result<(), NoMemory>
    ensures { OnOk result (out.new ≡ out.old ++ (if is then variable_word nest.now var else [])) }
{
    if is {
        append_variable(nest, var, out)?;
    }
    Ok(())
}

/// Appends the variables for which a subscript waits.
fn append_waiting(
    nest: &Nest,
    form: &Affine,
    bound: &[bool; 4],
    out: &mut Text,
) -> Result<(), NoMemory>
    ensures { (vs : List ℕ) → Marks vs bound.now →
        OnOk result (out.new ≡ out.old ++ flat_map (variable_word nest.now) (waiting vs form.now)) }
{
    let mut var = 0;
    'vars: while var < 4 {
        append_where(nest, var, is_waiting(form, bound, var), out)?;
        var += 1;
    }
    Ok(())
}

/// Appends the variables that a step over both axes binds, and binds them.
fn append_flat(
    nest: &Nest,
    term: &Term,
    reference: u32,
    bound: &[bool; 4],
    out: &mut Text,
) -> Result<(), NoMemory>
    ensures { (vs : List ℕ) → Marks vs bound.now →
        OnOk result (out.new ≡ out.old ++ flat_map (variable_word nest.now) (flat_variables vs (slice_get term.now.sparse reference))) }
{
    let Some(found) = term.sparse.get(reference as usize) else {
        return Ok(());
    };
    append_waiting(nest, &found.row, bound, out)?;
    let after = marked(&found.row, bound);
    append_waiting(nest, &found.col, &after, out)?;
    Ok(())
}

/// What is bound after a step.
fn bound_after(term: &Term, bound: &[bool; 4], step: PlanStep) -> [bool; 4]
    ensures { (vs : List ℕ) → Marks vs bound.now → Marks (bound_after term.now vs step) result }
{
    match step {
        PlanStep::Range { var } | PlanStep::Drive { var, .. } | PlanStep::Merge { var, .. } => {
            with_mark(bound, var)
        }
        PlanStep::DriveFlat { reference } => match term.sparse.get(reference as usize) {
            Some(found) => marked(&found.col, &marked(&found.row, bound)),
            None => *bound,
        },
    }
}

/// Appends the line of a step, where these variables are bound before it.
fn append_step(
    job: &Checked,
    nest: &Nest,
    term: &Term,
    bound: &[bool; 4],
    step: PlanStep,
    out: &mut Text,
) -> Result<(), NoMemory>
    ensures { (vs : List ℕ) → Marks vs bound.now → OnOk result (out.new ≡ out.old ++ step_line job.now nest.now term.now vs step) }
{
    match step {
        PlanStep::Range { var } => {
            out.append(b"range")?;
            append_variable(nest, var, out)?;
        }
        PlanStep::Drive {
            reference,
            level,
            var,
        } => {
            out.append(b"drive ")?;
            append_level(job, term, reference, level, out)?;
            append_variable(nest, var, out)?;
        }
        PlanStep::DriveFlat { reference } => {
            out.append(b"flat ")?;
            append_reference(job, term, reference, out)?;
            append_flat(nest, term, reference, bound, out)?;
        }
        PlanStep::Merge {
            left,
            left_level,
            right,
            right_level,
            var,
        } => {
            out.append(b"merge ")?;
            append_level(job, term, left, left_level, out)?;
            out.append(b" ")?;
            append_level(job, term, right, right_level, out)?;
            append_variable(nest, var, out)?;
        }
    }
    out.append(b"\n")
}

fn append_steps(
    job: &Checked,
    nest: &Nest,
    term: &Term,
    steps: &[PlanStep],
    out: &mut Text,
) -> Result<(), NoMemory>
    ensures { OnOk result (out.new ≡ out.old ++ steps_text job.now nest.now term.now (unused nest.now) steps.now) }
{
    let mut bound = unused(nest);
    for step in steps {
        append_step(job, nest, term, &bound, *step, out)?;
        bound = bound_after(term, &bound, *step);
    }
    Ok(())
}

/// The variables that a nest does not have count as bound.
fn unused(nest: &Nest) -> [bool; 4]
    ensures { Marks (unused nest.now) result }
{
    let variables = nest.vars.len();
    [
        !(0 < variables),
        !(1 < variables),
        !(2 < variables),
        !(3 < variables),
    ]
}

/// Appends a term's first line; nest and term are numbered from 1.
fn append_head(nest: usize, term: usize, cost: u128, out: &mut Text) -> Result<(), NoMemory>
    ensures { OnOk result (out.new ≡ out.old ++ term_line nest term cost) }
{
    let mut digits = Buffer::new();
    out.append(b"nest ")?;
    out.append(digits.format(nest).as_bytes())?;
    out.append(b" term ")?;
    out.append(digits.format(term).as_bytes())?;
    out.append(b" cost ")?;
    out.append(digits.format(cost).as_bytes())?;
    out.append(b"\n")
}

fn append_terms(
    job: &Checked,
    number: usize,
    nest: &Nest,
    terms: &Items<PlannedTerm>,
    out: &mut Text,
) -> Result<(), NoMemory>
    requires { number + 1 < 2 ^ 64 }
    ensures { OnOk result (out.new ≡ out.old ++ terms_text job.now number nest.now terms.now) }
{
    for place in 0..terms.len() {
        let planned = terms.at(place);
        append_head(number + 1, place + 1, planned.cost, out)?;
        append_steps(job, nest, &planned.term, planned.plan.steps.as_slice(), out)?;
    }
    Ok(())
}

/// Appends the plans of a nest, where both are there.
fn append_nest(job: &Checked, plans: &Plans, number: usize, out: &mut Text) -> Result<(), NoMemory>
    requires there { number < length job.now.nests }
    requires fits { number + 1 < 2 ^ 64 }
    ensures { OnOk result (out.new ≡ out.old ++ numbered_text job.now plans.now number) }
{
    let nest = job.nests.at(number);
    match plans.nests.get(number) {
        Some(terms) => append_terms(job, number, nest, terms, out),
        None => Ok(()),
    }
}

fn append_nests(job: &Checked, plans: &Plans, out: &mut Text) -> Result<(), NoMemory>
    ensures { OnOk result (out.new ≡ out.old ++ plan_text job.now plans.now) }
{
    for number in 0..job.nests.len() {
        append_nest(job, plans, number, out)?;
    }
    Ok(())
}

/// The text of plans: for each term of each nest, both numbered from 1, its cost, and then a line for each step.
///
/// `drive 1:A.row i` goes over the stored rows of A, the term's first sparse reference, and solves each for i; `range i` takes
/// all values of i; `flat 1:A i j` goes over the entries of a coordinate list, and `merge 1:A.col 2:B.col j` over two levels
/// at once.
pub fn plan_text(alloc: Global, job: &Checked, plans: &Plans) -> Result<Text, NoMemory>
    ensures { IfOk result (λ text. text ≡ plan_text job.now plans.now) }
{
    let mut out = Text::new(alloc);
    append_nests(job, plans, &mut out)?;
    Ok(out)
}
