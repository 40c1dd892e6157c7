ghost use Rattle.std.specs.Prelude.{◌≡◌, ℕ, ◌<◌, List, length, Bool, Option, IsTrue, IsSome, IsOk, IfSome, IfOk, OnOk, OnErr, false};
ghost use Rattle.std.specs.Io.{ReadsAtMost, WritesAtMost};
ghost use Rattle.std.specs.Io.KnownBytes.{ReadConsumes, WriteAppends};
ghost use Rattle.bern_ports.specs.Causes.{HasCause};
ghost use Rattle.bern_ports.specs.Files.{Files, bytes_of, BlamesOnly, StandsAtStart};

use bern_base::Text;
use thiserror::Error;

/// A call on a shelf or a sink that failed; its count of faults rose.
#[derive(Clone, Copy, Debug, PartialEq, Eq, Error)]
#[error("the call failed")]
pub struct Failed;

/// A source of files. One file at a time is begun, and reading stands somewhere in it.
pub trait Shelf {
    /// The files, where they are told.
    ghost files: { Self → Option Files };

    /// Whether a file is begun.
    ghost begun: { Self → Bool };

    /// The name of the begun file; it means something where files are told.
    ghost current: { Self → List ℕ };

    /// What reading has still to give of the begun file, where it is told.
    ghost left: { Self → Option (List ℕ) };

    /// How many calls have failed.
    ghost faults: { Self → ℕ };

    /// How many calls on this name have failed; it means something where files are told.
    ghost faults_on: { Self → List ℕ → ℕ };

    /// Whether no call on a name that is there fails.
    ghost sure: { Self → Bool };

    /// Begins a file; reading then stands at its first byte. A name that is not there is a fault, and after a fault no file
    /// is begun.
    fn begin(&mut self, name: &Text) -> Result<(), Failed>
        ensures files { files self.new ≡ files self.old }
        ensures sure { sure self.new ≡ sure self.old }
        ensures begun { OnOk result (IsTrue (begun self.new)) }
        ensures start { OnOk result (IfSome (files self.old) (λ fs. StandsAtStart fs name.now (current self.new) (left self.new))) }
        ensures none { OnErr result (begun self.new ≡ false) }
        ensures cause { HasCause (faults self.old) (faults self.new) result }
        ensures blame { BlamesOnly (files self.old) name.now (faults_on self.old) (faults_on self.new) result }
        ensures succeeds { IsTrue (sure self.old) → IfSome (files self.old) (λ fs. IsSome (bytes_of fs name.now) → IsOk result) };

    /// Reads the next bytes of the begun file into the front of `buf`. It gives none only at the end; after a fault reading
    /// stands where it was.
    fn read(&mut self, buf: &mut [u8]) -> Result<usize, Failed>
        requires begun { IsTrue (begun self.old) }
        requires room { 0 < length buf.old }
        ensures files { files self.new ≡ files self.old }
        ensures sure { sure self.new ≡ sure self.old }
        ensures begun { IsTrue (begun self.new) }
        ensures current { current self.new ≡ current self.old }
        ensures bound { ReadsAtMost result buf.new }
        ensures bytes { ReadConsumes (left self.old) (left self.new) result buf.new }
        ensures cause { HasCause (faults self.old) (faults self.new) result }
        ensures blame { BlamesOnly (files self.old) (current self.old) (faults_on self.old) (faults_on self.new) result }
        ensures succeeds { IsTrue (sure self.old) → IsOk result };

    /// A sure shelf tells its files.
    ghost sure_tells: { (s : Self) → IsTrue (sure s) → IsSome (files s) };
}

/// A taker of bytes.
pub trait Sink {
    /// All that was written, where it is told.
    ghost written: { Self → Option (List ℕ) };

    /// How many writes have failed.
    ghost faults: { Self → ℕ };

    /// Writes some bytes from the front of `piece`, at least one. After a fault nothing was written; a write that would take
    /// nothing is a fault.
    fn write(&mut self, piece: &[u8]) -> Result<usize, Failed>
        requires { 0 < length piece.now }
        ensures bound { WritesAtMost result piece.now }
        ensures some { IfOk result (λ n. 0 < n) }
        ensures bytes { WriteAppends (written self.old) (written self.new) result piece.now }
        ensures cause { HasCause (faults self.old) (faults self.new) result };
}
