ghost use Rattle.std.specs.Prelude.{◌≡◌, ◌<◌, ◌≤◌, length, map, slice_set, true, IfOk};
ghost use Rattle.std.specs.List.{All, range_with_len};
ghost use Rattle.bern_base.specs.Matrix.{IsMatrix};
ghost use Rattle.job_model.specs.Nests.{end_state};
ghost use Rattle.rank_scripts.specs.Scripts.{total};
ghost use Rattle.rank_scripts.specs.Nodes.{fresh};
ghost use Rattle.rank_model.specs.Products.{IsRun, Run, end_value, scripts};
ghost use Rattle.rank_node.specs.Jobs.{is_whole};
ghost use Rattle.rank_node.specs.NodeStates.{node_of};
ghost use Rattle.interleave.specs.Worlds.{AreAtEnd, IsRank, IsStart, IsWorld};
ghost use Rattle.rank_product.specs.Shapes.{IsProduct};
ghost use Rattle.rank_product.specs.Runs.{AreOfJob, block_place, first_state, run_of};

use crate::parts::parts_of;
use crate::shape::ProductShape;
use bern_base::{Checked, Items, MOST_RANKS, Matrix, NoMemory, Val};
use interleave::{World, replay};
use placement::{Cyclic, Placement};
use rank_node::Node;
use std::alloc::Global;

/// `T[v] += S[v, w] * D[w]` on so many ranks: the values of T in order, and how many events it took.
///
/// There is a matrix for each array of the job, of its rows and columns; one of an array with `zero` has no entries. The
/// job leaves these values in T, and all other arrays as their matrices say. The events come in an order that the seed
/// chooses; neither answer depends on it. Each rank walks all entries once to find its own.
pub fn product_on_ranks(
    alloc: Global,
    job: &Checked,
    product: ProductShape,
    ranks: u32,
    seed: u64,
    matrices: &Items<Matrix>,
) -> Result<(Items<Val>, u64), NoMemory>
    requires product { IsProduct job.now product }
    requires matrices { AreOfJob job.now matrices.now }
    requires some { 1 ≤ ranks }
    requires most { ranks ≤ MOST_RANKS }
    ensures state { IfOk result (λ p.
        end_state job.now (first_state matrices.now) ≡ slice_set (first_state matrices.now) product.target p.0) }
    ensures long { IfOk result (λ p. length p.0 ≡ product.size) }
    ensures events { IfOk result (λ p. p.1 ≡ total (scripts (run_of (is_whole job.now) product ranks matrices.now))) }
{
    run_through(alloc, job, product, ranks, seed, matrices)
}

/// The values of T at the end of the run, and the number of its events.
fn run_through(
    alloc: Global,
    job: &Checked,
    product: ProductShape,
    ranks: u32,
    seed: u64,
    matrices: &Items<Matrix>,
) -> Result<(Items<Val>, u64), NoMemory>
    ghost run: { Run }
    requires run { run ≡ run_of (is_whole job.now) product ranks matrices.now }
    requires product { IsProduct job.now product }
    requires matrices { AreOfJob job.now matrices.now }
    requires some { 1 ≤ ranks }
    requires most { ranks ≤ MOST_RANKS }
    ensures values { IfOk result (λ p. p.0 ≡ map (end_value run) (range_with_len 0 product.size)) }
    ensures events { IfOk result (λ p. p.1 ≡ total (scripts run)) }
{
    let place = Cyclic::block(product.size, ranks);
    let nodes = new_nodes(alloc, job, product, matrices, &place, ranks)?;
    let (world, events) = replayed(alloc, nodes, seed)?;
    let values = gathered(alloc, &world, &place, product)?;
    Ok((values, events))
}

/// A new node for each rank.
fn new_nodes(
    alloc: Global,
    job: &Checked,
    product: ProductShape,
    matrices: &Items<Matrix>,
    place: &Cyclic,
    ranks: u32,
) -> Result<Items<Node>, NoMemory>
    requires product { IsProduct job.now product }
    requires matrices { AreOfJob job.now matrices.now }
    requires some { 1 ≤ ranks }
    requires most { ranks ≤ MOST_RANKS }
    requires place { ⟦<Cyclic as Placement>⟧.triples place.now ≡ block_place product.size ranks }
    requires ranks { ⟦<Cyclic as Placement>⟧.ranks place.now ≡ ranks }
    ensures { IfOk result (λ nodes. IsStart (run_of (is_whole job.now) product ranks matrices.now) nodes) }
{
    let mut nodes = Items::from_vec(Vec::with_capacity(alloc, ranks as usize)?);
    for rank in 0..ranks {
        let node = new_node(alloc, job, product, matrices, place, rank, ranks)?;
        nodes.push(node)?;
    }
    Ok(nodes)
}

/// The new node of a rank, which has the rank's parts of the arrays.
fn new_node(
    alloc: Global,
    job: &Checked,
    product: ProductShape,
    matrices: &Items<Matrix>,
    place: &Cyclic,
    rank: u32,
    ranks: u32,
) -> Result<Node, NoMemory>
    ghost run: { Run }
    requires run { run ≡ run_of (is_whole job.now) product ranks matrices.now }
    requires product { IsProduct job.now product }
    requires matrices { AreOfJob job.now matrices.now }
    requires most { ranks ≤ MOST_RANKS }
    requires place { ⟦<Cyclic as Placement>⟧.triples place.now ≡ block_place product.size ranks }
    requires ranks { ⟦<Cyclic as Placement>⟧.ranks place.now ≡ ranks }
    requires rank { rank < ranks }
    ensures rank { IfOk result (λ node. IsRank run rank node) }
    ensures fresh { IfOk result (λ node. node_of run node ≡ fresh (scripts run) rank) }
{
    let parts = parts_of(alloc, matrices, place, rank)?;
    Node::new(alloc, job, rank, ranks, parts)
}

/// The world of these nodes after its last event, and how many there were.
fn replayed(alloc: Global, nodes: Items<Node>, seed: u64) -> Result<(World, u64), NoMemory>
    ghost run: { Run }
    requires run { IsRun run }
    requires nodes { IsStart run nodes }
    ensures fit { IfOk result (λ end. IsWorld run end.0) }
    ensures end { IfOk result (λ end. AreAtEnd run end.0.nodes) }
    ensures events { IfOk result (λ end. end.1 ≡ total (scripts run)) }
{
    match World::new(alloc, nodes) {
        Ok(world) => replay(alloc, world, seed),
        Err(error) => Err(error),
    }
}

/// The values of T at the end, each from the rank that owns it.
fn gathered(
    alloc: Global,
    world: &World,
    place: &Cyclic,
    product: ProductShape,
) -> Result<Items<Val>, NoMemory>
    ghost run: { Run }
    requires fit { IsWorld run world.now }
    requires end { AreAtEnd run world.now.nodes }
    requires target { product.target ≡ run.target }
    requires place { ⟦<Cyclic as Placement>⟧.triples place.now ≡ run.place }
    requires size { product.size ≡ length run.place }
    ensures { IfOk result (λ values. values ≡ map (end_value run) (range_with_len 0 product.size)) }
{
    let mut values = Vec::with_capacity(alloc, product.size as usize)?;
    for i in 0..product.size {
        values.push(value_at(world, place, product.target, i))?;
    }
    Ok(Items::from_vec(values))
}

/// `T[i]` at the end.
fn value_at(world: &World, place: &Cyclic, target: u32, i: u32) -> Val
    ghost run: { Run }
    requires fit { IsWorld run world.now }
    requires end { AreAtEnd run world.now.nodes }
    requires target { target ≡ run.target }
    requires place { ⟦<Cyclic as Placement>⟧.triples place.now ≡ run.place }
    requires within { i < length run.place }
    ensures { result ≡ end_value run i }
{
    let node = world.nodes().at(place.owner(i) as usize);
    let held = node.owned_values(target);
    *held.at(place.local(i) as usize)
}
