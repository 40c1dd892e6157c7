ghost use Rattle.std.specs.Prelude.{◌≤◌, IfOk};
ghost use Rattle.prog_cases.specs.Settings.{IsLoaded};

use bern_base::{Checked, Items, NoMemory, Stats, Text};
use bern_ports::{MemShelf, are_once};
use job_accept::take_job;
use job_files::{ArrayFiles, load_arrays};
use job_plans::measured;
use std::alloc::Global;
use std::test::Fail;

/// A file by its name.
pub(crate) type File<'a> = (&'a [u8], &'a [u8]);

/// An accepted job with what its arrays begin with, and what is measured of them.
#[derive(Drop)]
pub(crate) struct Loaded {
    pub(crate) job: Checked,
    pub(crate) files: ArrayFiles,
    pub(crate) stats: Items<Stats>,
}

fn shelf_of(alloc: Global, files: &[File]) -> Result<MemShelf, Fail> {
    let mut items = Items::new(alloc);
    for (name, bytes) in files {
        items.push((
            Text::from_bytes(alloc, name)?,
            Text::from_bytes(alloc, bytes)?,
        ))?;
    }
    if are_once(&items) {
        return Ok(MemShelf::new(alloc, items, 64, Items::new(alloc))?);
    }
    Err(Fail::from("a name stands twice"))
}

/// A job of this text with its files.
pub(crate) fn load(alloc: Global, text: &[u8], files: &[File], ranks: u32) -> Result<Loaded, Fail>
    requires { 1 ≤ ranks }
    ensures { IfOk result (λ l. IsLoaded l.job l.files.matrices l.files.orders l.stats) }
{
    let job = take_job(alloc, text)?;
    let name = Text::from_bytes(alloc, b"job.txt")?;
    let mut shelf = shelf_of(alloc, files)?;
    match load_arrays(alloc, &name, &job, ranks, &mut shelf) {
        Ok(files) => {
            let stats = measured(alloc, &job, &files.matrices)?;
            Ok(Loaded { job, files, stats })
        }
        Err(_) => Err(Fail::from("no matrices")),
    }
}
