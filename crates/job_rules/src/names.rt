ghost use Rattle.std.specs.Prelude.{◌≡◌, [], ◌∷◌, ◌++◌, length, None, is_none, OnOk, OnErr};
ghost use Rattle.job_rules.specs.Known.{lookup};

use bern_base::NoMemory;
use indexmap::IndexMap;
use std::alloc::Global;
use std::marker::Model;

/// What a name stands for, by its number among those of its kind.
#[derive(Clone, Copy, Debug, PartialEq, Eq)]
pub(crate) enum Named {
    Extent(u32),
    Place(u32),
    Format(u32),
    Array(u32),
    /// A loop variable of the nest that is looked at.
    Variable(usize),
}

/// Names in the order of their declaration, each once, with what they stand for.
#[derive(Drop)]
pub(crate) struct Names<'a> {
    table: IndexMap<&'a [u8], Named>,
}

impl<'a> Model for Names<'a> {
    ghost use Rattle.job_rules.specs.Known.{Known, seen};
    ghost use Rattle.std.specs.Prelude.{map};

    ghost Value = { Known };

    ghost view = { λ n. map seen n.table.entries };
}

impl<'a> Names<'a> {
    /// No names. It takes no memory.
    pub(crate) fn new(alloc: Global) -> Names<'a>
        ensures { result ≡ [] }
    {
        Names {
            table: IndexMap::new(alloc),
        }
    }

    pub(crate) fn len(&self) -> usize
        ensures { result ≡ length self.now }
    {
        self.table.len()
    }

    /// What a name stands for, if it is there.
    pub(crate) fn find(&self, name: &[u8]) -> Option<Named>
        ensures { result ≡ lookup name.now self.now }
    {
        self.table.get(name).copied()
    }

    /// Appends a name that is not there; after want of memory all is as before.
    pub(crate) fn add(&mut self, name: &'a [u8], named: Named) -> Result<(), NoMemory>
        requires { lookup name.now self.old ≡ None }
        ensures ok { OnOk result (self.new ≡ self.old ++ (name.now, named) ∷ []) }
        ensures err { OnErr result (self.new ≡ self.old) }
    {
        match self.table.insert(name, named) {
            Ok(_) => Ok(()),
            Err(_) => Err(NoMemory),
        }
    }
}
