use bern_base::{
    Affine, ArrayDecl, Axis, Checked, Entry, Expr, ExtentDecl, Factor, FormatDecl, Guard, Items,
    Matrix, Nest, NoMemory, PlaceDecl, PlaceKind, Product, Ref, Rel, Shape, Span, Text, Val,
};
use rank_product::{are_of_job, product_on_ranks, product_shape};
use std::alloc::Global;
use std::test::Fail;

/// What a job differs in from `T[i] += S[i, j] * D[j]` over one block place.
#[derive(Drop)]
struct Case {
    guarded: bool,
    replace: bool,
    /// How often the nest is done.
    turns: usize,
    /// The array that stands for D.
    source: u32,
    kind: PlaceKind,
    /// The format of S.
    shape: Shape,
}

fn plain() -> Case {
    Case {
        guarded: false,
        replace: false,
        turns: 1,
        source: 0,
        kind: PlaceKind::Block,
        shape: Shape::Jagged,
    }
}

fn named(alloc: Global, name: &[u8], shape: Shape) -> Result<FormatDecl, NoMemory> {
    Ok(FormatDecl {
        name: Text::from_bytes(alloc, name)?,
        shape,
    })
}

fn array(alloc: Global, name: &[u8], dims: u32, format: u32) -> Result<ArrayDecl, NoMemory> {
    Ok(ArrayDecl {
        name: Text::from_bytes(alloc, name)?,
        dims,
        rows: 3,
        cols: if dims == 2 { 3 } else { 1 },
        format,
        axis: Axis::Row,
        place: 0,
        file: None,
    })
}

fn span(alloc: Global, name: &[u8]) -> Result<Span, NoMemory> {
    Ok(Span {
        name: Text::from_bytes(alloc, name)?,
        lo: 0,
        hi: 3,
    })
}

fn variable_i() -> Affine {
    Affine::new(0, [1, 0, 0, 0])
}

fn variable_j() -> Affine {
    Affine::new(0, [0, 1, 0, 0])
}

fn nothing() -> Affine {
    Affine::new(0, [0, 0, 0, 0])
}

fn element(array: u32, row: Affine, col: Affine) -> Ref {
    Ref { array, row, col }
}

/// The factors `S[i, j]` and `D[j]`.
fn body(alloc: Global, source: u32) -> Result<Expr, NoMemory> {
    let stored = Factor::Read(element(2, variable_i(), variable_j()));
    let source = Factor::Read(element(source, variable_j(), nothing()));
    let factors = Items::from_vec(vec![in alloc; stored, source]?);
    let product = Product {
        minus: false,
        factors,
    };
    Ok(Expr {
        sums: Items::from_vec(vec![in alloc; product]?),
    })
}

fn guards(alloc: Global, guarded: bool) -> Result<Items<Guard>, NoMemory> {
    let mut guards = Items::new(alloc);
    if guarded {
        guards.push(Guard {
            left: variable_i(),
            rel: Rel::Lt,
        })?;
    }
    Ok(guards)
}

fn formats(alloc: Global, sparse: Shape) -> Result<Items<FormatDecl>, NoMemory> {
    let vec = named(alloc, b"vec", Shape::DenseOne)?;
    let sparse = named(alloc, b"sparse", sparse)?;
    let dense = named(alloc, b"dense", Shape::DenseDense(Axis::Row))?;
    Ok(Items::from_vec(vec![in alloc; vec, sparse, dense]?))
}

/// D, T and S, and a dense matrix that no nest names.
fn arrays(alloc: Global) -> Result<Items<ArrayDecl>, NoMemory> {
    let d = array(alloc, b"D", 1, 0)?;
    let t = array(alloc, b"T", 1, 0)?;
    let s = array(alloc, b"S", 2, 1)?;
    let e = array(alloc, b"E", 2, 2)?;
    Ok(Items::from_vec(vec![in alloc; d, t, s, e]?))
}

fn vars(alloc: Global) -> Result<Items<Span>, NoMemory> {
    let i = span(alloc, b"i")?;
    let j = span(alloc, b"j")?;
    Ok(Items::from_vec(vec![in alloc; i, j]?))
}

fn nests(
    alloc: Global,
    guarded: bool,
    replace: bool,
    source: u32,
) -> Result<Items<Nest>, NoMemory> {
    let nest = Nest {
        line: 9,
        vars: vars(alloc)?,
        guards: guards(alloc, guarded)?,
        target: element(1, variable_i(), nothing()),
        replace,
        body: body(alloc, source)?,
    };
    Ok(Items::from_vec(vec![in alloc; nest]?))
}

fn extents(alloc: Global) -> Result<Items<ExtentDecl>, NoMemory> {
    let name = Text::from_bytes(alloc, b"n")?;
    Ok(Items::from_vec(vec![in alloc; ExtentDecl { name, size: 3 }]?))
}

fn places(alloc: Global, kind: PlaceKind) -> Result<Items<PlaceDecl>, NoMemory> {
    let place = PlaceDecl {
        name: Text::from_bytes(alloc, b"p")?,
        extent: 0,
        kind,
        arrays_before: 0,
    };
    Ok(Items::from_vec(vec![in alloc; place]?))
}

fn job(alloc: Global, case: Case) -> Result<Checked, NoMemory> {
    let nests = nests(alloc, case.guarded, case.replace, case.source)?;
    let places = places(alloc, case.kind)?;
    let formats = formats(alloc, case.shape)?;
    Ok(Checked {
        extents: extents(alloc)?,
        places,
        formats,
        arrays: arrays(alloc)?,
        nests,
        turns: Items::from_vec(vec![in alloc; 0; case.turns]?),
        prints: Items::from_vec(vec![in alloc; 1, 3]?),
    })
}

fn entry(row: u32, col: u32, value: u64) -> Entry {
    Entry {
        row,
        col,
        value: Val::new(value),
    }
}

fn matrix(alloc: Global, cols: u32, entries: &[Entry]) -> Result<Matrix, NoMemory> {
    Ok(Matrix {
        rows: 3,
        cols,
        entries: Items::from_slice(alloc, entries)?,
    })
}

/// D is (1, 2, 3), T is (0, 7, 2^64 - 4), and the rows of S are (2, 0, 1), (0, 0, 0) and (0, 5, 0).
fn matrices(alloc: Global) -> Result<Items<Matrix>, NoMemory> {
    let d = [entry(0, 0, 1), entry(1, 0, 2), entry(2, 0, 3)];
    let t = [entry(1, 0, 7), entry(2, 0, 18_446_744_073_709_551_612)];
    let s = [entry(0, 0, 2), entry(0, 2, 1), entry(2, 1, 5)];
    let e = [entry(1, 1, 6)];
    let d = matrix(alloc, 1, d.as_slice())?;
    let t = matrix(alloc, 1, t.as_slice())?;
    let s = matrix(alloc, 3, s.as_slice())?;
    let e = matrix(alloc, 3, e.as_slice())?;
    let matrices = vec![in alloc; d, t, s, e]?;
    Ok(Items::from_vec(matrices))
}

#[test]
fn the_product_is_the_same_on_any_number_of_ranks(rt: HostRuntime) -> Result<(), Fail> {
    let alloc = rt.alloc();
    let job = job(alloc, plain())?;
    let matrices = matrices(alloc)?;
    assert!(rt; are_of_job(&job, &matrices));
    for (ranks, seed, events) in [(1, 0, 3), (2, 7, 14), (3, 1, 25)] {
        match product_shape(&job) {
            Some(product) => {
                let (values, happened) = product_on_ranks(
                    alloc, &job, product, ranks, seed, &matrices,
                )?;
                assert_eq!(rt;
                    values.as_slice(),
                    [Val::new(5), Val::new(7), Val::new(6)].as_slice()
                );
                assert_eq!(rt; happened, events);
            }
            None => assert!(rt; false),
        }
    }
    Ok(())
}

/// An array whose values a file gives.
fn given(alloc: Global, name: &[u8], dims: u32, format: u32) -> Result<ArrayDecl, NoMemory> {
    let mut decl = array(alloc, name, dims, format)?;
    decl.file = Some(Text::from_bytes(alloc, b"values.mtx")?);
    Ok(decl)
}

/// D, T and S, and a sparse matrix and a vector that no nest names. T and the last two come from files.
fn given_arrays(alloc: Global) -> Result<Items<ArrayDecl>, NoMemory> {
    let d = array(alloc, b"D", 1, 0)?;
    let t = given(alloc, b"T", 1, 0)?;
    let s = array(alloc, b"S", 2, 1)?;
    let e = given(alloc, b"E", 2, 1)?;
    let f = given(alloc, b"F", 1, 0)?;
    Ok(Items::from_vec(vec![in alloc; d, t, s, e, f]?))
}

/// D is (1, 2, 3), T is (10, 20, 2^64 - 1), the rows of S are (0, 4, 0), (0, 0, 0) and (1, 0, 2), and E and F have values
/// too.
fn given_matrices(alloc: Global) -> Result<Items<Matrix>, NoMemory> {
    let d = [entry(0, 0, 1), entry(1, 0, 2), entry(2, 0, 3)];
    let t = [
        entry(0, 0, 10),
        entry(1, 0, 20),
        entry(2, 0, 18_446_744_073_709_551_615),
    ];
    let s = [entry(0, 1, 4), entry(2, 0, 1), entry(2, 2, 2)];
    let e = [entry(0, 0, 100), entry(1, 2, 100)];
    let f = [entry(0, 0, 100), entry(1, 0, 100)];
    let d = matrix(alloc, 1, d.as_slice())?;
    let t = matrix(alloc, 1, t.as_slice())?;
    let s = matrix(alloc, 3, s.as_slice())?;
    let e = matrix(alloc, 3, e.as_slice())?;
    let f = matrix(alloc, 1, f.as_slice())?;
    Ok(Items::from_vec(vec![in alloc; d, t, s, e, f]?))
}

#[test]
fn values_from_a_file_grow_beside_arrays_that_no_nest_names(rt: HostRuntime) -> Result<(), Fail> {
    let alloc = rt.alloc();
    let mut job = job(alloc, plain())?;
    job.arrays = given_arrays(alloc)?;
    let matrices = given_matrices(alloc)?;
    assert!(rt; are_of_job(&job, &matrices));
    for ranks in [1, 2, 4] {
        match product_shape(&job) {
            Some(product) => {
                let (values, _) = product_on_ranks(alloc, &job, product, ranks, 3, &matrices)?;
                assert_eq!(rt;
                    values.as_slice(),
                    [Val::new(18), Val::new(20), Val::new(6)].as_slice()
                );
            }
            None => assert!(rt; false),
        }
    }
    Ok(())
}

fn has_product(alloc: Global, case: Case) -> Result<bool, NoMemory> {
    let job = job(alloc, case)?;
    Ok(product_shape(&job).is_some())
}

#[test]
fn a_job_of_another_shape_has_no_product(rt: HostRuntime) -> Result<(), Fail> {
    let alloc = rt.alloc();
    let guarded = Case {
        guarded: true,
        ..plain()
    };
    let replacing = Case {
        replace: true,
        ..plain()
    };
    let repeated = Case {
        turns: 2,
        ..plain()
    };
    let onto_itself = Case {
        source: 1,
        ..plain()
    };
    let dealt_in_turn = Case {
        kind: PlaceKind::Cyclic(1),
        ..plain()
    };
    let stored_whole = Case {
        shape: Shape::DenseDense(Axis::Row),
        ..plain()
    };
    assert!(rt; has_product(alloc, plain())?);
    assert!(rt; !has_product(alloc, guarded)?);
    assert!(rt; !has_product(alloc, replacing)?);
    assert!(rt; !has_product(alloc, repeated)?);
    assert!(rt; !has_product(alloc, onto_itself)?);
    assert!(rt; !has_product(alloc, dealt_in_turn)?);
    assert!(rt; !has_product(alloc, stored_whole)?);
    Ok(())
}
