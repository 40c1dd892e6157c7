ghost use Rattle.std.specs.Prelude.{◌<◌};
ghost use Rattle.bern_base.specs.Affine.{IsWithin};

use bern_base::{Affine, Axis, Expr, Items, LevelStat, Nest, Ref, Span, Stats, Text, Val};
use loop_query::Term;
use std::alloc::Global;
use std::test::Fail;

/// Numbers that are drawn one after another, by a linear congruence modulo 2^64.
#[derive(Drop)]
pub(crate) struct Draws {
    state: u64,
}

impl Draws {
    pub(crate) fn new(state: u64) -> Draws {
        Draws { state }
    }

    /// A number from 0 to `bound - 1`.
    fn below(&mut self, bound: u64) -> u64
        requires { 0 < bound }
        ensures { result < bound }
    {
        self.state = self
            .state
            .wrapping_mul(6_364_136_223_846_793_005)
            .wrapping_add(1_442_695_040_888_963_407);
        (self.state >> 33) % bound
    }

    /// Whether one of so many draws falls on 0.
    fn is_one_of(&mut self, bound: u64) -> bool
        requires { 0 < bound }
    {
        self.below(bound) == 0
    }

    /// The factor of a variable that counts, mostly 1.
    fn factor(&mut self) -> i64
        ensures { IsWithin 1048575 result }
    {
        match self.below(8) {
            0 => 2,
            1 => -1,
            _ => 1,
        }
    }

    /// The factor of a second variable, mostly none.
    fn second_factor(&mut self) -> i64
        ensures { IsWithin 1048575 result }
    {
        if self.is_one_of(6) { 1 } else { 0 }
    }

    fn constant(&mut self) -> i64
        ensures { IsWithin 4294967295 result }
    {
        if self.is_one_of(4) { 3 } else { 0 }
    }

    /// One of so many variables, mostly one of the first, with its factor.
    fn part(&mut self, variables: u64, factor: i64) -> Part
        requires some { 0 < variables }
        requires factor { IsWithin 1048575 factor }
        ensures { IsWithin 1048575 result.factor }
    {
        let var = self.below(variables).min(self.below(variables));
        Part { var, factor }
    }
}

/// A variable with its factor.
#[derive(Clone, Copy)]
struct Part {
    var: u64,
    factor: i64,
}

/// The factor that both parts give a variable together.
fn coefficient(var: u64, first: Part, second: Part) -> i64
    requires first { IsWithin 1048575 first.factor }
    requires second { IsWithin 1048575 second.factor }
    ensures { IsWithin 2097151 result }
{
    let own = if first.var == var { first.factor } else { 0 };
    let other = if second.var == var { second.factor } else { 0 };
    own + other
}

/// The form of these factors of three variables.
fn form_of(constant: i64, first: i64, second: i64, third: i64) -> Affine
    requires constant { IsWithin 4294967295 constant }
    requires first { IsWithin 2097151 first }
    requires second { IsWithin 2097151 second }
    requires third { IsWithin 2097151 third }
{
    Affine::new(constant, [first, second, third, 0])
}

/// A subscript of one variable, or at times of two.
fn subscript(draws: &mut Draws, variables: u64) -> Affine
    requires { 0 < variables }
{
    let factor = draws.factor();
    let first = draws.part(variables, factor);
    let factor = draws.second_factor();
    let second = draws.part(variables, factor);
    form_of(
        draws.constant(),
        coefficient(0, first, second),
        coefficient(1, first, second),
        coefficient(2, first, second),
    )
}

/// The subscript of the one column of a vector.
fn nothing() -> Affine {
    Affine::new(0, [0, 0, 0, 0])
}

/// How an array is stored: the levels that a plan sees.
#[derive(Clone, Copy, PartialEq, Eq)]
enum Form {
    Vector,
    Rows,
    Columns,
    Jagged,
    Coordinates,
    SortedElements,
}

fn draw_form(draws: &mut Draws) -> Form {
    match draws.below(8) {
        0 => Form::Vector,
        1 => Form::Columns,
        2 => Form::Jagged,
        3 => Form::Coordinates,
        4 => Form::SortedElements,
        _ => Form::Rows,
    }
}

fn level(draws: &mut Draws, axis: Axis, ordered: bool) -> LevelStat {
    LevelStat {
        axis,
        ordered,
        estimate: draws.below(12),
        weight: draws.below(12),
    }
}

fn stats(alloc: Global, draws: &mut Draws, form: Form) -> Result<Stats, Fail> {
    let levels = match form {
        Form::Vector => vec![in alloc; level(draws, Axis::Row, true)]?,
        Form::Rows => {
            vec![in alloc;
                level(draws, Axis::Row, true),
                level(draws, Axis::Col, true),
            ]?
        }
        Form::Columns => {
            vec![in alloc;
                level(draws, Axis::Col, true),
                level(draws, Axis::Row, true),
            ]?
        }
        Form::Jagged => {
            vec![in alloc;
                level(draws, Axis::Row, false),
                level(draws, Axis::Col, true),
            ]?
        }
        Form::Coordinates => vec![in alloc; level(draws, Axis::Both, false)]?,
        Form::SortedElements => vec![in alloc; level(draws, Axis::Both, true)]?,
    };
    Ok(Stats {
        levels: Items::from_vec(levels),
    })
}

/// A drawn nest, its one term, and what was measured of the array of each sparse reference.
#[derive(Drop)]
pub(crate) struct Drawn {
    pub(crate) nest: Nest,
    pub(crate) term: Term,
    pub(crate) stats: Items<Stats>,
}

/// A nest of so many loops, of one to nine values each.
fn nest(alloc: Global, draws: &mut Draws, variables: u64) -> Result<Nest, Fail> {
    let mut vars = Items::new(alloc);
    for _ in 0..variables {
        let span = match draws.below(3) {
            0 => Span {
                name: Text::new(alloc),
                lo: 0,
                hi: 9,
            },
            1 => Span {
                name: Text::new(alloc),
                lo: -1,
                hi: 3,
            },
            _ => Span {
                name: Text::new(alloc),
                lo: 2,
                hi: 3,
            },
        };
        vars.push(span)?;
    }
    Ok(Nest {
        line: 1,
        vars,
        guards: Items::new(alloc),
        target: Ref {
            array: 0,
            row: nothing(),
            col: nothing(),
        },
        replace: false,
        body: Expr {
            sums: Items::new(alloc),
        },
    })
}

/// A term of one to three variables and of none to three sparse references.
pub(crate) fn draw_term(alloc: Global, draws: &mut Draws) -> Result<Drawn, Fail> {
    let variables = 1 + draws.below(3);
    let references = draws.below(7).min(3);
    let mut sparse = Items::new(alloc);
    let mut measured = Items::new(alloc);
    for reference in 0..references {
        let form = draw_form(draws);
        let row = subscript(draws, variables);
        let col = if form == Form::Vector {
            nothing()
        } else {
            subscript(draws, variables)
        };
        measured.push(stats(alloc, draws, form)?)?;
        let array = u32::try_from(reference).unwrap_or(0);
        sparse.push(Ref { array, row, col })?;
    }
    Ok(Drawn {
        nest: nest(alloc, draws, variables)?,
        term: Term {
            factor: Val::new(1),
            dense: Items::new(alloc),
            sparse,
        },
        stats: measured,
    })
}
