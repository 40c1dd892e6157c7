ghost use Rattle.std.specs.Prelude.{◌≡◌, ◌++◌, OnOk, OnErr};
ghost use Rattle.std.specs.Io.{StartsWith};
ghost use Rattle.job_runs.specs.Texts.{events_text};

use bern_base::{NoMemory, Text};
use itoa::Buffer;

/// Appends the line with the number of events of a run. After want of memory `out` is as before.
pub(crate) fn write_events(events: u64, out: &mut Text) -> Result<(), NoMemory>
    ensures ok { OnOk result (out.new ≡ out.old ++ events_text events) }
    ensures err { OnErr result (out.new ≡ out.old) }
{
    let before = out.len();
    match append_events(events, out) {
        Ok(()) => Ok(()),
        Err(fault) => {
            out.truncate(before);
            Err(fault)
        }
    }
}

fn append_events(events: u64, out: &mut Text) -> Result<(), NoMemory>
    ensures ok { OnOk result (out.new ≡ out.old ++ events_text events) }
    ensures kept { StartsWith out.new out.old }
{
    let mut digits = Buffer::new();
    out.append(b"events ")?;
    out.append(digits.format(events).as_bytes())?;
    out.append(b"\n")?;
    Ok(())
}
