ghost use Rattle.std.specs.Prelude.{◌≡◌, ◌≤◌, flat_map};
ghost use Rattle.bern_ports.specs.Frames.{port};
ghost use Rattle.bern_top.specs.Answers.{Writes};

use bern_base::MOST_PIECE;
use bern_ports::{Failed, Sink};

/// Writes all of these bytes, each write being given what is left, up to 65,536 bytes. It takes no memory.
pub(crate) fn write_whole<S: Sink>(bytes: &[u8], sink: &mut S) -> Result<(), Failed>
    ensures later { S.faults sink.old ≤ S.faults sink.new }
    ensures writes { Writes (port S.Sink sink.old sink.new) bytes.now result }
{
    let mut rest = bytes;
    while !rest.is_empty() {
        let (piece, _) = rest.split_at(rest.len().min(MOST_PIECE));
        match sink.write(piece) {
            Ok(count) => {
                let (_, later) = rest.split_at(count);
                rest = later;
            }
            Err(failed) => return Err(failed),
        }
    }
    Ok(())
}

/// Writes these pieces, one after the other.
pub(crate) fn write_pieces<S: Sink>(pieces: &[&[u8]], sink: &mut S) -> Result<(), Failed>
    ensures later { S.faults sink.old ≤ S.faults sink.new }
    ensures writes { Writes (port S.Sink sink.old sink.new) (flat_map (λ piece. piece.now) pieces.now) result }
{
    for piece in pieces {
        match write_whole(piece, sink) {
            Ok(()) => {}
            Err(failed) => return Err(failed),
        }
    }
    Ok(())
}
