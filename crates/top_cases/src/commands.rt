ghost use Rattle.std.specs.Prelude.{◌≡◌, ◌<◌, None};

use bern_base::{Items, NoMemory, Steps, Text};
use bern_ports::{Failed, MemShelf, MemSink, Shelf, Sink, are_once};
use bern_top::bernoulli;
use std::alloc::Global;
use std::marker::Brand;
use std::sync::ledger::{Blank, Ledger};
use std::test::Fail;

const JOB: &[u8] =
    b"extent n 3\nplace p n block\nformat coo row col list\nformat vec row dense\narray A n,n coo row by p from a.mtx\narray X n vec row by p from x.mtx\narray Y n vec row by p zero\ndoany i 0..n j 0..n : Y[i] += A[i,j]*X[j]\nprint Y\n";

const MATRIX: &[u8] =
    b"%%MatrixMarket matrix coordinate integer general\n3 3 4\n1 1 2\n1 3 1\n3 2 4\n3 2 1\n";

const VECTOR: &[u8] =
    b"%%MatrixMarket matrix coordinate integer general\n3 1 3\n1 1 1\n2 1 2\n3 1 3\n";

const DUE: &[u8] = b"%%MatrixMarket matrix array integer general\n% Y\n3 1\n5\n0\n10\n";

pub(crate) fn file(alloc: Global, name: &[u8], bytes: &[u8]) -> Result<(Text, Text), NoMemory> {
    Ok((
        Text::from_bytes(alloc, name)?,
        Text::from_bytes(alloc, bytes)?,
    ))
}

/// The files of the job in memory, read in pieces of 16 bytes; the calls of this number on this name fail.
fn shelf(alloc: Global, fails: Items<(Text, u64)>) -> Result<MemShelf, Fail> {
    let mut files = Items::new(alloc);
    files.push(file(alloc, b"job.txt", JOB)?)?;
    files.push(file(alloc, b"a.mtx", MATRIX)?)?;
    files.push(file(alloc, b"x.mtx", VECTOR)?)?;
    if are_once(&files) {
        return Ok(MemShelf::new(alloc, files, 16, fails)?);
    }
    Err(Fail::from("a name stands twice"))
}

pub(crate) fn words(alloc: Global, all: &[&str]) -> Result<Vec<String>, NoMemory> {
    let mut words = Vec::new(alloc);
    for word in all {
        words.push(String::from_str(alloc, word)?)?;
    }
    Ok(words)
}

/// What a command answers: its status, and what stands on both streams.
#[derive(Drop)]
pub(crate) struct Outcome {
    pub(crate) status: u8,
    pub(crate) out: MemSink,
    pub(crate) err: MemSink,
}

pub(crate) fn counted<L: Ledger>(
    alloc: Global,
    words: &[String],
    mut shelf: MemShelf,
    fails: Items<u64>,
    blank: Blank,
) -> Result<Outcome, NoMemory>
    requires name { blank.name ≡ L.name }
    requires parts { blank.parts ≡ L.parts }
    requires some { 0 < blank.parts }
{
    let mut out = MemSink::new(alloc, 10, 1_000, fails)?;
    let mut err = MemSink::new(alloc, 3, 1_000, Items::new(alloc))?;
    let mut steps: Steps<L> = Steps::start(blank);
    let status = bernoulli(alloc, words, &mut shelf, &mut out, &mut err, &mut steps);
    Ok(Outcome { status, out, err })
}

/// The outcome of a command over the files of the job, where these calls of the shelf and writes on the first stream fail.
fn outcome_of(
    alloc: Global,
    all: &[&str],
    fails: Items<(Text, u64)>,
    write_fails: Items<u64>,
) -> Result<Outcome, Fail> {
    let shelf = shelf(alloc, fails)?;
    let words = words(alloc, all)?;
    Ok(counted::<Brand>(alloc, &words, shelf, write_fails, Blank::new(1))?)
}

/// Words, and the status, the text and the line that they end with: each call that takes memory, with enough of it.
const ENDINGS: &[(&[&str], u8, &[u8], &[u8])] = &[
    (&["run", "job.txt", "3"], 0, DUE, b""),
    (
        &["replay", "job.txt", "2", "7"],
        0,
        b"%%MatrixMarket matrix array integer general\n% Y\n3 1\n5\n0\n10\nevents 14\n",
        b"",
    ),
    (&["walk", "job.txt", "1"], 2, b"", b"refused words C1\n"),
    (&["run", "x.mtx", "1"], 2, b"", b"refused x.mtx:1 J2\n"),
    (&["run", "o.txt", "1"], 3, b"", b"read fault o.txt\n"),
];

#[test]
fn each_command_has_its_ending(rt: HostRuntime) -> Result<(), Fail> {
    let alloc = rt.alloc();
    for (words, status, text, line) in ENDINGS {
        let seen = outcome_of(alloc, words, Items::new(alloc), Items::new(alloc))?;
        assert_eq!(rt; seen.status, *status);
        assert_eq!(rt; seen.out.bytes(), *text);
        assert_eq!(rt; seen.err.bytes(), *line);
    }
    Ok(())
}

/// Each file with its number of calls, a `begin` and the reads of 16 bytes, and the line of its fault.
const CALLS: &[(&[u8], u64, &[u8])] = &[
    (b"job.txt", 16, b"read fault job.txt\n"),
    (b"a.mtx", 7, b"read fault a.mtx\n"),
    (b"x.mtx", 7, b"read fault x.mtx\n"),
];

#[test]
fn each_call_that_fails_in_turn_names_its_file(rt: HostRuntime) -> Result<(), Fail> {
    let alloc = rt.alloc();
    for (name, calls, line) in CALLS {
        for call in 0..*calls {
            let mut fails = Items::new(alloc);
            fails.push((Text::from_bytes(alloc, name)?, call))?;
            let seen = outcome_of(alloc, &["run", "job.txt", "1"], fails, Items::new(alloc))?;
            assert_eq!(rt; seen.status, 3);
            assert_eq!(rt; seen.out.bytes(), b"".as_slice());
            assert_eq!(rt; seen.err.bytes(), *line);
        }
    }
    Ok(())
}

#[test]
fn a_write_that_fails_leaves_what_was_written_before(rt: HostRuntime) -> Result<(), Fail> {
    let alloc = rt.alloc();
    // Each write takes 10 bytes, and the last one what is left.
    for call in 0..6 {
        let fails = Items::from_slice(alloc, &[call])?;
        let seen = outcome_of(alloc, &["run", "job.txt", "1"], Items::new(alloc), fails)?;
        assert_eq!(rt; seen.status, 4);
        assert_eq!(rt; seen.out.bytes(), &DUE[..10 * call as usize]);
        assert_eq!(rt; seen.err.bytes(), b"write fault\n".as_slice());
    }
    Ok(())
}

/// A job whose text has 140,056 bytes.
const LONG: &[u8] =
    b"extent n 70000\nplace p n block\nformat vec row dense\narray Y n vec row by p zero\nprint Y\n";

/// A sink that takes at most 40,000 bytes of a write, and notes how many the first four writes are given.
#[derive(Drop)]
struct Noting {
    given: [usize; 4],
    calls: usize,
}

impl Sink for Noting {
    ghost written = { λ s. None };

    ghost faults = { λ s. 0 };

    fn write(&mut self, piece: &[u8]) -> Result<usize, Failed> {
        if self.calls < 4 {
            self.given[self.calls] = piece.len();
            self.calls += 1;
        }
        Ok(piece.len().min(40_000))
    }
}

fn new_sink() -> Noting {
    Noting {
        given: [0; 4],
        calls: 0,
    }
}

fn noted<L: Ledger>(alloc: Global, words: &[String], blank: Blank) -> Result<[usize; 4], Fail>
    requires name { blank.name ≡ L.name }
    requires parts { blank.parts ≡ L.parts }
    requires some { 0 < blank.parts }
{
    let mut files = Items::new(alloc);
    files.push(file(alloc, b"job.txt", LONG)?)?;
    if !are_once(&files) {
        return Err(Fail::from("a name stands twice"));
    }
    let mut shelf = MemShelf::new(alloc, files, 65_536, Items::new(alloc))?;
    let mut out = new_sink();
    let mut err = new_sink();
    let mut steps: Steps<L> = Steps::start(blank);
    bernoulli(alloc, words, &mut shelf, &mut out, &mut err, &mut steps);
    Ok(out.given)
}

#[test]
fn each_write_is_given_what_is_left(rt: HostRuntime) -> Result<(), Fail> {
    let alloc = rt.alloc();
    let words = words(alloc, &["run", "job.txt", "1"])?;
    // 140,056 bytes are left, then 100,056, 60,056 and 20,056; a write is given at most 65,536.
    assert_eq!(rt;
        noted::<Brand>(alloc, &words, Blank::new(1))?,
        [65_536, 65_536, 60_056, 20_056]
    );
    Ok(())
}
