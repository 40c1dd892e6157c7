use bern_base::{
    ArrayDecl, Axis, Checked, Entry, ExtentDecl, FormatDecl, Items, Matrix, NoMemory, PlaceDecl,
    PlaceKind, Refusal, Rule, Shape, Text, Val,
};
use bern_ports::{MemShelf, are_once};
use job_files::{ArrayFiles, LoadError, load_arrays, weight_within};
use std::alloc::Global;
use std::test::Fail;

/// A format by its words: its levels and the axis of the outer one, the offsets of its diagonals, or the file of its order.
#[derive(Drop)]
enum Words {
    DenseOne,
    PackedOne,
    ListOne,
    DenseDense,
    DensePacked(Axis),
    PackedPacked,
    ListTwo,
    Jagged,
    Diagonal(&'static [i64]),
    Permute(&'static [u8]),
}

fn shape_of(alloc: Global, words: &Words) -> Result<Shape, NoMemory> {
    Ok(match words {
        Words::DenseOne => Shape::DenseOne,
        Words::PackedOne => Shape::PackedOne,
        Words::ListOne => Shape::ListOne,
        Words::DenseDense => Shape::DenseDense(Axis::Row),
        Words::DensePacked(outer) => Shape::DensePacked(*outer),
        Words::PackedPacked => Shape::PackedPacked(Axis::Row),
        Words::ListTwo => Shape::ListTwo,
        Words::Jagged => Shape::Jagged,
        Words::Diagonal(offsets) => Shape::Diagonal(Items::from_slice(alloc, offsets)?),
        Words::Permute(file) => Shape::Permute(Text::from_bytes(alloc, file)?),
    })
}

fn no_arrays(alloc: Global) -> Checked {
    Checked {
        extents: Items::new(alloc),
        places: Items::new(alloc),
        formats: Items::new(alloc),
        arrays: Items::new(alloc),
        nests: Items::new(alloc),
        turns: Items::new(alloc),
        prints: Items::new(alloc),
    }
}

/// One array more, with a format of its own; a file of no name is none.
fn add_array(
    alloc: Global,
    job: &mut Checked,
    words: &Words,
    sizes: (u32, u32, Axis),
    file: &[u8],
) -> Result<(), NoMemory> {
    let (rows, cols, axis) = sizes;
    let format = job.formats.len().min(1000) as u32;
    job.formats.push(FormatDecl {
        name: Text::new(alloc),
        shape: shape_of(alloc, words)?,
    })?;
    let file = if file.is_empty() {
        None
    } else {
        Some(Text::from_bytes(alloc, file)?)
    };
    job.arrays.push(ArrayDecl {
        name: Text::new(alloc),
        dims: 2,
        rows,
        cols,
        format,
        axis,
        place: 0,
        file,
    })
}

/// The array that weighs more than any other.
const GREATEST: (Words, u32, u32, Axis) = (
    Words::DensePacked(Axis::Both),
    4_294_967_295,
    4_294_967_295,
    Axis::Row,
);

/// Arrays, and what they weigh on 3 ranks.
const WEIGHTS: &[(&[(Words, u32, u32, Axis)], Option<u64>)] = &[
    (&[], Some(0)),
    (&[(Words::DensePacked(Axis::Row), 7, 5, Axis::Row)], Some(7)),
    (
        &[(Words::DensePacked(Axis::Row), 7, 5, Axis::Col)],
        Some(21),
    ),
    (&[(Words::DensePacked(Axis::Col), 7, 5, Axis::Col)], Some(5)),
    (
        &[(Words::DensePacked(Axis::Col), 7, 5, Axis::Row)],
        Some(15),
    ),
    (
        &[
            (Words::DenseOne, 7, 1, Axis::Row),
            (Words::Jagged, 7, 5, Axis::Row),
            (Words::Permute(b"order"), 2, 5, Axis::Row),
        ],
        Some(16),
    ),
    (
        &[
            (Words::PackedOne, 7, 1, Axis::Row),
            (Words::ListOne, 7, 1, Axis::Row),
            (Words::PackedPacked, 7, 5, Axis::Row),
            (Words::ListTwo, 7, 5, Axis::Col),
        ],
        Some(0),
    ),
    (&[(Words::Diagonal(&[0]), 4, 3, Axis::Row)], Some(3)),
    (&[(Words::Diagonal(&[2, 3]), 4, 3, Axis::Row)], Some(1)),
    (
        &[(Words::Diagonal(&[-4, -3, -1]), 4, 3, Axis::Row)],
        Some(4),
    ),
    (
        &[(
            Words::Diagonal(&[-9_223_372_036_854_775_808, 0, 9_223_372_036_854_775_807]),
            4,
            3,
            Axis::Row,
        )],
        Some(3),
    ),
    (
        &[(Words::DenseDense, 4096, 4096, Axis::Row)],
        Some(16_777_216),
    ),
    (
        &[
            (Words::DenseDense, 4096, 4096, Axis::Row),
            (Words::DenseOne, 1, 1, Axis::Row),
        ],
        None,
    ),
    (&[GREATEST], None),
];

#[test]
fn arrays_weigh_what_their_formats_keep(rt: HostRuntime) -> Result<(), Fail> {
    let alloc = rt.alloc();
    for (arrays, weight) in WEIGHTS {
        let mut job = no_arrays(alloc);
        for (words, rows, cols, axis) in arrays.iter() {
            add_array(alloc, &mut job, words, (*rows, *cols, *axis), b"")?;
        }
        assert_eq!(rt; weight_within(&job, 3), *weight);
    }
    Ok(())
}

const BAD: &[u8] = b"%%MatrixMarket matrix array integer general\n1 1\n5\n";

/// The files of the jobs below, in memory.
const FILES: &[(&[u8], &[u8])] = &[
    (
        b"a",
        b"%%MatrixMarket matrix coordinate integer general\n2 1 1\n2 1 7\n",
    ),
    (
        b"b",
        b"%%MatrixMarket matrix array integer general\n1 1\n5\n",
    ),
    (
        b"pair",
        b"%%MatrixMarket matrix coordinate integer general\n2 1 2\n1 1 3\n2 1 4\n",
    ),
    (
        b"broken",
        b"%%MatrixMarket matrix coordinate integer general\n2 1 2\n2 1 7\n",
    ),
    (b"bad", BAD),
    (
        b"order",
        b"%%MatrixMarket matrix array integer general\n2 1\n2\n1\n",
    ),
];

/// They are read in pieces of 16 bytes. A `begin` and the reads of the 61 bytes of `a` make 6 calls, so a second reading
/// of it would fail, as does the second call on `bad`.
fn shelf(alloc: Global) -> Result<Option<MemShelf>, NoMemory> {
    let mut files = Items::new(alloc);
    for (name, bytes) in FILES {
        files.push((
            Text::from_bytes(alloc, name)?,
            Text::from_bytes(alloc, bytes)?,
        ))?;
    }
    let mut fails = Items::new(alloc);
    fails.push((Text::from_bytes(alloc, b"a")?, 6))?;
    fails.push((Text::from_bytes(alloc, b"bad")?, 1))?;
    if are_once(&files) {
        Ok(Some(MemShelf::new(alloc, files, 16, fails)?))
    } else {
        Ok(None)
    }
}

/// What loading answers.
enum Outcome {
    Loaded,
    Refused(&'static [u8], u64, Rule),
    Fault(&'static [u8]),
}

fn is_as(answer: &Result<ArrayFiles, LoadError>, outcome: &Outcome) -> bool {
    match (answer, outcome) {
        (Ok(_), Outcome::Loaded) => true,
        (
            Err(LoadError::Refused(Refusal::File { file, line, rule })),
            Outcome::Refused(name, at, by),
        ) => { file.as_bytes() == *name && line == at && rule == by }
        (Err(LoadError::ReadFault { file }), Outcome::Fault(name)) => file.as_bytes() == *name,
        _ => false,
    }
}

const LIMIT: u32 = 16_777_216;

/// What an array without a file weighs, the file, the rows and the columns of the arrays after it, and the answer.
const JOBS: &[(u32, &[(&[u8], u32, u32)], Outcome)] = &[
    (LIMIT, &[], Outcome::Loaded),
    (
        LIMIT + 1,
        &[(b"none", 2, 1)],
        Outcome::Refused(b"job", 0, Rule::F7),
    ),
    (
        1,
        &[(b"a", 2, 1), (b"a", 1, 1)],
        Outcome::Refused(b"a", 0, Rule::F1),
    ),
    (
        1,
        &[(b"a", 2, 1), (b"broken", 2, 1), (b"a", 1, 1)],
        Outcome::Refused(b"a", 0, Rule::F1),
    ),
    (
        1,
        &[(b"broken", 1, 1), (b"a", 1, 1)],
        Outcome::Refused(b"broken", 4, Rule::M10),
    ),
    (
        1,
        &[(b"b", 1, 1), (b"a", 2, 2), (b"none", 2, 1)],
        Outcome::Refused(b"a", 0, Rule::F1),
    ),
    (
        LIMIT,
        &[(b"pair", 2, 1), (b"pair", 2, 2)],
        Outcome::Refused(b"pair", 0, Rule::F1),
    ),
    (
        LIMIT - 5,
        &[(b"a", 2, 1), (b"pair", 2, 1), (b"a", 2, 1), (b"b", 1, 1)],
        Outcome::Loaded,
    ),
    (
        LIMIT - 4,
        &[(b"a", 2, 1), (b"pair", 2, 1), (b"a", 2, 1), (b"b", 1, 1)],
        Outcome::Refused(b"b", 0, Rule::F7),
    ),
    (
        LIMIT - 3,
        &[(b"pair", 2, 1), (b"broken", 2, 1), (b"pair", 2, 1)],
        Outcome::Refused(b"pair", 0, Rule::F7),
    ),
    (
        1,
        &[(b"a", 2, 1), (b"bad", 1, 1), (b"broken", 2, 1)],
        Outcome::Fault(b"bad"),
    ),
    (
        1,
        &[(b"none", 1, 1), (b"broken", 2, 1)],
        Outcome::Fault(b"none"),
    ),
];

#[test]
fn the_first_refusal_or_fault_is_that_of_the_first_file(rt: HostRuntime) -> Result<(), Fail> {
    let alloc = rt.alloc();
    let name = Text::from_bytes(alloc, b"job")?;
    for (weight, uses, outcome) in JOBS {
        let mut job = no_arrays(alloc);
        add_array(
            alloc,
            &mut job,
            &Words::DenseOne,
            (*weight, 1, Axis::Row),
            b"",
        )?;
        for (file, rows, cols) in uses.iter() {
            add_array(
                alloc,
                &mut job,
                &Words::ListTwo,
                (*rows, *cols, Axis::Row),
                file,
            )?;
        }
        let mut shelf = shelf(alloc)?.ok_or("a name stands twice")?;
        let answer = load_arrays(alloc, &name, &job, 3, &mut shelf);
        assert!(rt; is_as(&answer, outcome));
    }
    Ok(())
}

/// What an array without a file weighs, the formats, the rows, the columns and the files of the arrays after it, and the
/// answer.
const SHAPED: &[(u32, &[(Words, u32, u32, &[u8])], Outcome)] = &[
    (
        1,
        &[(Words::Permute(b"order"), 2, 1, b"a")],
        Outcome::Loaded,
    ),
    (1, &[(Words::Permute(b"order"), 2, 1, b"")], Outcome::Loaded),
    (
        1,
        &[(Words::Permute(b"order"), 1, 1, b"broken")],
        Outcome::Refused(b"order", 0, Rule::F1),
    ),
    (
        1,
        &[(Words::Permute(b"order"), 2, 2, b"a")],
        Outcome::Refused(b"a", 0, Rule::F1),
    ),
    (
        1,
        &[(Words::Permute(b"pair"), 2, 1, b"broken")],
        Outcome::Refused(b"pair", 0, Rule::F3),
    ),
    (
        1,
        &[
            (Words::ListTwo, 2, 1, b"pair"),
            (Words::Permute(b"pair"), 2, 1, b"broken"),
        ],
        Outcome::Refused(b"pair", 0, Rule::F3),
    ),
    (
        LIMIT - 5,
        &[(Words::Permute(b"order"), 2, 1, b"a")],
        Outcome::Loaded,
    ),
    (
        LIMIT - 4,
        &[(Words::Permute(b"order"), 2, 1, b"a")],
        Outcome::Refused(b"a", 0, Rule::F7),
    ),
    (
        LIMIT - 3,
        &[(Words::Permute(b"order"), 2, 1, b"a")],
        Outcome::Refused(b"order", 0, Rule::F7),
    ),
    (1, &[(Words::Diagonal(&[-1]), 2, 1, b"a")], Outcome::Loaded),
    (
        1,
        &[(Words::Diagonal(&[0]), 2, 1, b"a")],
        Outcome::Refused(b"a", 0, Rule::F2),
    ),
    (
        1,
        &[(Words::Diagonal(&[0]), 2, 2, b"a")],
        Outcome::Refused(b"a", 0, Rule::F1),
    ),
];

#[test]
fn an_order_of_rows_is_read_before_its_array(rt: HostRuntime) -> Result<(), Fail> {
    let alloc = rt.alloc();
    let name = Text::from_bytes(alloc, b"job")?;
    for (weight, arrays, outcome) in SHAPED {
        let mut job = no_arrays(alloc);
        add_array(
            alloc,
            &mut job,
            &Words::DenseOne,
            (*weight, 1, Axis::Row),
            b"",
        )?;
        for (words, rows, cols, file) in arrays.iter() {
            add_array(alloc, &mut job, words, (*rows, *cols, Axis::Row), file)?;
        }
        let mut shelf = shelf(alloc)?.ok_or("a name stands twice")?;
        let answer = load_arrays(alloc, &name, &job, 3, &mut shelf);
        assert!(rt; is_as(&answer, outcome));
    }
    Ok(())
}

/// How many ranks there are, what an array without a file weighs, the file of a place of 2 indices and how many arrays are
/// declared before it, the file, the rows and the columns of the arrays after the first one, and the answer.
const PLACED: &[(u32, u32, (&[u8], usize), &[(&[u8], u32, u32)], Outcome)] = &[
    (1, LIMIT - 2, (b"pair", 1), &[], Outcome::Loaded),
    (
        1,
        LIMIT - 1,
        (b"pair", 1),
        &[],
        Outcome::Refused(b"pair", 0, Rule::F7),
    ),
    (
        1,
        LIMIT - 3,
        (b"pair", 1),
        &[(b"pair", 2, 1)],
        Outcome::Refused(b"pair", 0, Rule::F7),
    ),
    (
        1,
        1,
        (b"a", 1),
        &[(b"broken", 2, 1)],
        Outcome::Refused(b"a", 0, Rule::F4),
    ),
    (
        1,
        1,
        (b"a", 2),
        &[(b"broken", 2, 1)],
        Outcome::Refused(b"broken", 4, Rule::M10),
    ),
    (
        3,
        1,
        (b"pair", 1),
        &[(b"pair", 2, 2)],
        Outcome::Refused(b"pair", 0, Rule::F6),
    ),
    (
        3,
        1,
        (b"pair", 2),
        &[(b"pair", 2, 2)],
        Outcome::Refused(b"pair", 0, Rule::F1),
    ),
];

/// A place of 2 indices that a file lists, declared after so many arrays.
fn add_place(
    alloc: Global,
    job: &mut Checked,
    file: &[u8],
    arrays_before: usize,
) -> Result<(), NoMemory> {
    job.extents.push(ExtentDecl {
        name: Text::from_bytes(alloc, b"n")?,
        size: 2,
    })?;
    job.places.push(PlaceDecl {
        name: Text::from_bytes(alloc, b"p")?,
        extent: 0,
        kind: PlaceKind::Listed(Text::from_bytes(alloc, file)?),
        arrays_before,
    })
}

#[test]
fn the_file_of_a_place_is_read_at_its_line(rt: HostRuntime) -> Result<(), Fail> {
    let alloc = rt.alloc();
    let name = Text::from_bytes(alloc, b"job")?;
    for (ranks, weight, (file, arrays_before), arrays, outcome) in PLACED {
        let mut job = no_arrays(alloc);
        add_place(alloc, &mut job, file, *arrays_before)?;
        add_array(
            alloc,
            &mut job,
            &Words::DenseOne,
            (*weight, 1, Axis::Row),
            b"",
        )?;
        for (file, rows, cols) in arrays.iter() {
            add_array(
                alloc,
                &mut job,
                &Words::ListTwo,
                (*rows, *cols, Axis::Row),
                file,
            )?;
        }
        let mut shelf = shelf(alloc)?.ok_or("a name stands twice")?;
        let answer = load_arrays(alloc, &name, &job, *ranks, &mut shelf);
        assert!(rt; is_as(&answer, outcome));
    }
    Ok(())
}

#[test]
fn each_array_has_the_matrix_of_its_file(rt: HostRuntime) -> Result<(), Fail> {
    let alloc = rt.alloc();
    let name = Text::from_bytes(alloc, b"job")?;
    let mut job = no_arrays(alloc);
    for file in [b"a".as_slice(), b"", b"a"] {
        add_array(alloc, &mut job, &Words::ListTwo, (2, 1, Axis::Row), file)?;
    }
    let mut shelf = shelf(alloc)?.ok_or("a name stands twice")?;
    let files = load_arrays(alloc, &name, &job, 3, &mut shelf).map_err(|_| "no matrices")?;
    let entry = Entry {
        row: 1,
        col: 0,
        value: Val::new(7),
    };
    assert_eq!(rt; files.matrices.len(), 3);
    for (matrix, count) in files.matrices.as_slice().iter().zip([1, 0, 1]) {
        assert_eq!(rt; matrix.entries.len(), count);
        assert!(rt; matrix.entries.as_slice().iter().all(|e| *e == entry));
    }
    Ok(())
}
