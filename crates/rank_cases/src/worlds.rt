ghost use Rattle.std.specs.Prelude.{◌≡◌, ◌<◌, [], ◌∷◌, IfOk, OnOk};
ghost use Rattle.rank_node.specs.NodeStates.{node_of};
ghost use Rattle.rank_scripts.specs.Nodes.{fresh};
ghost use Rattle.rank_model.specs.Products.{scripts};
ghost use Rattle.interleave.specs.TwoRanks.{array_of_two, at_rank, body_of_two, entry_at, factors_of_two, job_of_two, nest_of_two, part_of_two, parts_of_two, run_of_two, span_of_two, target_of_two};
ghost use Rattle.interleave.specs.Worlds.{IsRank, IsWorld};

use bern_base::{
    ArrayDecl, Axis, Checked, Entry, Expr, ExtentDecl, Factor, FormatDecl, Items, Matrix, Nest,
    NoMemory, PlaceDecl, PlaceKind, Product, Ref, Shape, Span, Text, Val,
};
use interleave::{Event, StepError, World};
use placement::Part;
use rank_node::{Node, nothing, variable_v, variable_w};
use std::alloc::Global;
use std::test::Fail;

fn one<T: Drop>(alloc: Global, item: T) -> Result<Items<T>, NoMemory>
    ensures { IfOk result (λ items. items ≡ item ∷ []) }
{
    let mut items = Items::new(alloc);
    items.push(item)?;
    Ok(items)
}

fn two<T: Drop>(alloc: Global, first: T, second: T) -> Result<Items<T>, NoMemory>
    ensures { IfOk result (λ items. items ≡ first ∷ second ∷ []) }
{
    let mut items = one(alloc, first)?;
    items.push(second)?;
    Ok(items)
}

fn span(alloc: Global) -> Span
    ensures { result ≡ span_of_two }
{
    Span {
        name: Text::new(alloc),
        lo: 0,
        hi: 2,
    }
}

/// The factors `S[v, w]` and `D[w]`.
fn factors(alloc: Global) -> Result<Items<Factor>, NoMemory>
    ensures { IfOk result (λ factors. factors ≡ factors_of_two) }
{
    let stored = Ref {
        array: 2,
        row: variable_v(),
        col: variable_w(),
    };
    let source = Ref {
        array: 0,
        row: variable_w(),
        col: nothing(),
    };
    two(alloc, Factor::Read(stored), Factor::Read(source))
}

fn body(alloc: Global) -> Result<Expr, NoMemory>
    ensures { IfOk result (λ body. body ≡ body_of_two) }
{
    let product = Product {
        minus: false,
        factors: factors(alloc)?,
    };
    Ok(Expr {
        sums: one(alloc, product)?,
    })
}

fn nest(alloc: Global) -> Result<Nest, NoMemory>
    ensures { IfOk result (λ nest. nest ≡ nest_of_two) }
{
    let vars = two(alloc, span(alloc), span(alloc))?;
    let body = body(alloc)?;
    Ok(Nest {
        line: 1,
        vars,
        guards: Items::new(alloc),
        target: Ref {
            array: 1,
            row: variable_v(),
            col: nothing(),
        },
        replace: false,
        body,
    })
}

fn array(alloc: Global, dims: u32, cols: u32, format: u32) -> ArrayDecl
    ensures { result ≡ array_of_two dims cols format }
{
    ArrayDecl {
        name: Text::new(alloc),
        dims,
        rows: 2,
        cols,
        format,
        axis: Axis::Row,
        place: 0,
        file: None,
    }
}

/// D, T and S.
fn arrays(alloc: Global) -> Result<Items<ArrayDecl>, NoMemory>
    ensures { IfOk result (λ arrays. arrays ≡ job_of_two.arrays) }
{
    let mut arrays = two(alloc, array(alloc, 1, 1, 0), array(alloc, 1, 1, 0))?;
    arrays.push(array(alloc, 2, 2, 1))?;
    Ok(arrays)
}

fn formats(alloc: Global) -> Result<Items<FormatDecl>, NoMemory>
    ensures { IfOk result (λ formats. formats ≡ job_of_two.formats) }
{
    let dense = FormatDecl {
        name: Text::new(alloc),
        shape: Shape::DenseOne,
    };
    let sparse = FormatDecl {
        name: Text::new(alloc),
        shape: Shape::ListTwo,
    };
    two(alloc, dense, sparse)
}

fn extents(alloc: Global) -> Result<Items<ExtentDecl>, NoMemory>
    ensures { IfOk result (λ extents. extents ≡ job_of_two.extents) }
{
    let name = Text::new(alloc);
    one(alloc, ExtentDecl { name, size: 2 })
}

fn places(alloc: Global) -> Result<Items<PlaceDecl>, NoMemory>
    ensures { IfOk result (λ places. places ≡ job_of_two.places) }
{
    let place = PlaceDecl {
        name: Text::new(alloc),
        extent: 0,
        kind: PlaceKind::Block,
        arrays_before: 0,
    };
    one(alloc, place)
}

fn job(alloc: Global) -> Result<Checked, NoMemory>
    ensures { IfOk result (λ job. job ≡ job_of_two) }
{
    let extents = extents(alloc)?;
    let places = places(alloc)?;
    let formats = formats(alloc)?;
    let arrays = arrays(alloc)?;
    let nest = nest(alloc)?;
    let nests = one(alloc, nest)?;
    Ok(Checked {
        extents,
        places,
        formats,
        arrays,
        nests,
        turns: one(alloc, 0)?,
        prints: one(alloc, 1)?,
    })
}

fn at_rank(rank: u32, zeroth: u64, first: u64) -> u64
    ensures { result ≡ at_rank rank zeroth first }
{
    if rank == 0 { zeroth } else { first }
}

/// A part of one row, with one entry.
fn part(alloc: Global, rank: u32, cols: u32, col: u32, value: u64) -> Result<Part, NoMemory>
    ensures { IfOk result (λ part. part ≡ part_of_two rank cols (entry_at 0 col value)) }
{
    let entry = Entry {
        row: 0,
        col,
        value: Val::new(value),
    };
    let matrix = Matrix {
        rows: 1,
        cols,
        entries: one(alloc, entry)?,
    };
    let globals = one(alloc, rank)?;
    Ok(Part { matrix, globals })
}

fn parts(alloc: Global, rank: u32) -> Result<Items<Part>, NoMemory>
    ensures { IfOk result (λ parts. parts ≡ parts_of_two rank) }
{
    let d = part(alloc, rank, 1, 0, at_rank(rank, 5, 7))?;
    let t = part(alloc, rank, 1, 0, at_rank(rank, 10, 20))?;
    let s = part(alloc, rank, 2, 1, at_rank(rank, 3, 2))?;
    let mut parts = two(alloc, d, t)?;
    parts.push(s)?;
    Ok(parts)
}

fn node(alloc: Global, rank: u32) -> Result<Node, NoMemory>
    requires { rank < 2 }
    ensures rank { IfOk result (λ node. IsRank run_of_two rank node) }
    ensures fresh { IfOk result (λ node. node_of run_of_two node ≡ fresh (scripts run_of_two) rank) }
{
    let job = job(alloc)?;
    let parts = parts(alloc, rank)?;
    Node::new(alloc, &job, rank, 2, parts)
}

fn world(alloc: Global) -> Result<World, NoMemory>
    ensures { IfOk result (λ world. IsWorld run_of_two world) }
{
    let first = node(alloc, 0)?;
    let second = node(alloc, 1)?;
    let nodes = two(alloc, first, second)?;
    World::new(alloc, nodes)
}

/// Whether the event is enabled; if it is, it happens.
fn happens(alloc: Global, world: &mut World, event: Event) -> Result<bool, NoMemory>
    requires { IsWorld run_of_two world.old }
    ensures { OnOk result (IsWorld run_of_two world.new) }
{
    match world.step(alloc, event) {
        Ok(()) => Ok(true),
        Err(StepError::NotEnabled) => Ok(false),
        Err(StepError::NoMemory) => Err(NoMemory),
    }
}

/// The one value of T that a rank has.
fn target_at(world: &World, rank: u32) -> Option<u64>
    requires world { IsWorld run_of_two world.now }
    requires rank { rank < 2 }
{
    let node = world.nodes().at(rank as usize);
    match node.owned_values(1).get(0) {
        Some(value) => Some(value.bits()),
        None => None,
    }
}

#[test]
fn a_letter_may_come_early_and_a_step_may_be_refused(rt: HostRuntime) -> Result<(), Fail> {
    let alloc = rt.alloc();
    let mut ranks = world(alloc)?;
    let steps = [
        (Event::Post { rank: 0 }, false),
        (Event::Take { rank: 0, from: 1 }, false),
        (Event::Work { rank: 1 }, true),
        (Event::Post { rank: 1 }, true),
        // Rank 0 takes a Request before it has inspected its own entries.
        (Event::Take { rank: 0, from: 1 }, true),
        (Event::Take { rank: 0, from: 1 }, false),
        (Event::Work { rank: 0 }, true),
        (Event::Post { rank: 0 }, true),
        (Event::Work { rank: 0 }, true),
        // It waits for an element of rank 1.
        (Event::Work { rank: 0 }, false),
        (Event::Take { rank: 1, from: 0 }, true),
        (Event::Post { rank: 1 }, true),
        (Event::Work { rank: 1 }, true),
        (Event::Work { rank: 1 }, true),
        (Event::Take { rank: 0, from: 1 }, true),
        (Event::Work { rank: 0 }, true),
        (Event::Work { rank: 2 }, false),
    ];
    for (event, enabled) in steps {
        assert_eq!(rt; happens(alloc, &mut ranks, event)?, enabled);
    }
    assert_eq!(rt; target_at(&ranks, 0), Some(31));
    assert_eq!(rt; target_at(&ranks, 1), Some(34));
    Ok(())
}
