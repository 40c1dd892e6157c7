//! The program: real words, files and streams for the top call.
#![tactic(auto)]

ghost use Rattle.std.specs.Prelude.{◌≡◌, ◌<◌};

use bern_base::{NoMemory, Steps};
use bern_ports::{DirShelf, StdSink};
use bern_top::{bernoulli, want_of_memory};
use std::env;
use std::io::ErrorKind;
use std::marker::Brand;
use std::process::ExitCode;
use std::sync::ledger::{Blank, Ledger};

/// The words of the command line, or none where one of them is no text.
fn words(rt: &HostRuntime) -> Result<Vec<String>, NoMemory> {
    let mut words = Vec::new(rt.alloc());
    let all = match env::args(rt) {
        Ok(all) => all,
        Err(error) if error.kind() == ErrorKind::OutOfMemory => return Err(NoMemory),
        Err(_) => return Ok(words),
    };
    for word in all.skip(1) {
        words.push(word)?;
    }
    Ok(words)
}

fn run<L: Ledger>(rt: &HostRuntime, blank: Blank) -> u8
    requires name { blank.name ≡ L.name }
    requires parts { blank.parts ≡ L.parts }
    requires some { 0 < blank.parts }
{
    let mut err = StdSink::err(rt);
    let Ok(words) = words(rt) else {
        return want_of_memory(&mut err);
    };
    let mut shelf = DirShelf::new(rt);
    let mut out = StdSink::out(rt);
    let mut steps: Steps<L> = Steps::start(blank);
    bernoulli(
        rt.alloc(),
        &words,
        &mut shelf,
        &mut out,
        &mut err,
        &mut steps,
    )
}

fn main(rt: HostRuntime) -> ExitCode {
    ExitCode::from(run::<Brand>(&rt, Blank::new(1)))
}
