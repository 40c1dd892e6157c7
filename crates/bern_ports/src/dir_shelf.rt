ghost use Rattle.std.specs.Prelude.{◌≡◌, None, [], false, is_some};

use crate::faults::fault;
use crate::ports::{Failed, Shelf};
use bern_base::Text;
use std::fs;
use std::io::Read;
use std::rt::Files;

/// The files of the current folder. It counts each error of the system and tells nothing of what the files hold.
#[derive(Drop)]
pub struct DirShelf<R: Files> {
    rt: R,
    file: Option<R::File>,
    faults: u64,
}

impl<R: Files> DirShelf<R> {
    /// A shelf of which no file is begun and no call has failed.
    pub fn new(rt: R) -> DirShelf<R>
        ensures begun { is_some result.file ≡ false }
        ensures faults { result.faults ≡ 0 }
    {
        DirShelf {
            rt,
            file: None,
            faults: 0,
        }
    }
}

/// The file of that name, opened for reading.
fn open<R: Files>(rt: &R, name: &Text) -> Option<R::File> {
    let name = str::from_utf8(name.as_bytes()).ok()?;
    fs::open(rt, name).ok()
}

impl<R: Files> Shelf for DirShelf<R> {
    ghost files = { λ _. None };

    ghost begun = { λ s. is_some s.file };

    ghost current = { λ _. [] };

    ghost left = { λ _. None };

    ghost faults = { λ s. s.faults };

    ghost faults_on = { λ _ _. 0 };

    ghost sure = { λ _. false };

    fn begin(&mut self, name: &Text) -> Result<(), Failed> {
        self.file = open(&self.rt, name);
        if self.file.is_none() {
            return Err(fault(&mut self.faults));
        }
        Ok(())
    }

    fn read(&mut self, buf: &mut [u8]) -> Result<usize, Failed> {
        match &mut self.file {
            None => Err(fault(&mut self.faults)),
            Some(file) => match file.read(buf) {
                Ok(count) => Ok(count),
                Err(_) => Err(fault(&mut self.faults)),
            },
        }
    }

    ghost sure_tells = { λ s t. Prim.cc };
}
