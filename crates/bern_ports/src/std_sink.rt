ghost use Rattle.std.specs.Prelude.{◌≡◌, None};
ghost use Rattle.std.specs.Io.{WritesAtMost};

use crate::faults::fault;
use crate::ports::{Failed, Sink};
use std::io;
use std::io::{Stderr, Stdout, Write};

#[derive(Drop)]
enum Stream {
    Out(Stdout),
    Err(Stderr),
}

/// Standard output or standard error. It counts each error of the system and tells nothing of what was written.
#[derive(Drop)]
pub struct StdSink {
    stream: Stream,
    faults: u64,
}

impl StdSink {
    /// Standard output; no write has failed.
    pub fn out(rt: &HostRuntime) -> StdSink
        ensures faults { result.faults ≡ 0 }
    {
        StdSink {
            stream: Stream::Out(rt.stdout()),
            faults: 0,
        }
    }

    /// Standard error; no write has failed.
    pub fn err(rt: &HostRuntime) -> StdSink
        ensures faults { result.faults ≡ 0 }
    {
        StdSink {
            stream: Stream::Err(rt.stderr()),
            faults: 0,
        }
    }
}

/// One write of the system.
fn give(stream: &mut Stream, piece: &[u8]) -> io::Result<usize>
    ensures { WritesAtMost result piece.now }
{
    match stream {
        Stream::Out(out) => out.write(piece),
        Stream::Err(err) => err.write(piece),
    }
}

impl Sink for StdSink {
    ghost written = { λ _. None };

    ghost faults = { λ s. s.faults };

    fn write(&mut self, piece: &[u8]) -> Result<usize, Failed> {
        match give(&mut self.stream, piece) {
            Ok(0) => Err(fault(&mut self.faults)),
            Ok(count) => Ok(count),
            Err(_) => Err(fault(&mut self.faults)),
        }
    }
}
