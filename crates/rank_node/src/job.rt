ghost use Rattle.std.specs.Prelude.{◌≡◌, ◌<◌, slice_get};
ghost use Rattle.job_model.specs.Runnable.{is_dense_format};
ghost use Rattle.rank_model.specs.Products.{Run};
ghost use Rattle.rank_node.specs.Jobs.{IsDealing, IsJobOf, IsProductNest, array_read, block_of, is_whole, nothing, variable_v, variable_w};

use bern_base::{Affine, Checked, Factor, Items, Nest, PlaceKind};

/// The array that a factor reads, if it reads one.
pub fn array_read(factors: &Items<Factor>, at: usize) -> Option<u32>
    ensures { result ≡ array_read factors.now at }
{
    match factors.get(at) {
        Some(Factor::Read(reference)) => Some(reference.array),
        _ => None,
    }
}

/// The form of the first loop variable, v.
pub fn variable_v() -> Affine
    ensures { result ≡ variable_v }
{
    Affine::new(0, [1, 0, 0, 0])
}

/// The form of the second loop variable, w.
pub fn variable_w() -> Affine
    ensures { result ≡ variable_w }
{
    Affine::new(0, [0, 1, 0, 0])
}

/// The form that is 0 at each point.
pub fn nothing() -> Affine
    ensures { result ≡ nothing }
{
    Affine::new(0, [0, 0, 0, 0])
}

/// How many indices a place deals at a time, where it deals in blocks.
pub(crate) fn block_of(kind: &PlaceKind, extent: u32, ranks: u32) -> Option<u32>
    requires { 0 < ranks }
    ensures { result ≡ block_of kind.now extent ranks }
{
    match kind {
        PlaceKind::Block => Some(extent.div_ceil(ranks)),
        PlaceKind::Cyclic(block) => Some(*block),
        PlaceKind::Listed(_) => None,
    }
}

/// Whether an array is stored whole.
pub(crate) fn is_whole(job: &Checked, array: usize) -> bool
    ensures { result ≡ is_whole job.now array }
{
    match job.arrays.get(array) {
        Some(decl) => is_whole_format(job, decl.format as usize),
        None => false,
    }
}

fn is_whole_format(job: &Checked, format: usize) -> bool
    ensures { result ≡ is_dense_format (slice_get job.now.formats format) }
{
    match job.formats.get(format) {
        Some(decl) => decl.shape.is_all_dense(),
        None => false,
    }
}

/// The extent of the place of an array, and how many of its indices are dealt at a time.
pub(crate) fn dealing(job: &Checked, array: u32, ranks: u32) -> (u32, u32)
    ghost run: { Run }
    requires job { IsJobOf run job.now }
    requires array { array ≡ run.target }
    requires some { 0 < ranks }
    requires ranks { ranks ≡ run.ranks }
    ensures { IsDealing run result.0 result.1 }
{
    let array = job.arrays.at(array as usize);
    let place = job.places.at(array.place as usize);
    let extent = job.extents.at(place.extent as usize).size;
    match block_of(&place.kind, extent, ranks) {
        Some(block) => (extent, block),
        None => unreachable!(),
    }
}

/// The arrays that the two factors of a nest read.
pub(crate) fn factors(nest: &Nest) -> (u32, u32)
    ghost run: { Run }
    requires { IsProductNest run nest.now }
    ensures stored { result.0 ≡ run.stored }
    ensures source { result.1 ≡ run.source }
{
    let product = nest.body.sums.at(0);
    match array_read(&product.factors, 0) {
        Some(stored) => match array_read(&product.factors, 1) {
            Some(source) => (stored, source),
            None => unreachable!(),
        },
        None => unreachable!(),
    }
}
