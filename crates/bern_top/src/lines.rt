ghost use Rattle.std.specs.Prelude.{◌≡◌, ◌≤◌};
ghost use Rattle.bern_ports.specs.Frames.{port};
ghost use Rattle.bern_top.specs.Answers.{Writes};
ghost use Rattle.bern_top.specs.Lines.{place_text, refusal_line, read_fault_line};

use crate::writing::write_pieces;
use bern_base::{Refusal, Rule};
use bern_ports::{Failed, Sink};
use itoa::Buffer;

/// Writes the line of a refusal. It takes no memory.
pub(crate) fn write_refusal<S: Sink>(refusal: &Refusal, err: &mut S) -> Result<(), Failed>
    ensures later { S.faults err.old ≤ S.faults err.new }
    ensures writes { Writes (port S.Sink err.old err.new) (refusal_line refusal.now) result }
{
    match refusal {
        Refusal::Words { rule } => write_words_refusal(*rule, err),
        Refusal::File { file, line, rule } => write_file_refusal(
            file.as_bytes(),
            *line,
            *rule,
            err,
        ),
    }
}

fn write_words_refusal<S: Sink>(rule: Rule, err: &mut S) -> Result<(), Failed>
    ensures later { S.faults err.old ≤ S.faults err.new }
    ensures writes { Writes (port S.Sink err.old err.new) (refusal_line (Refusal.Words rule)) result }
{
    let name = rule.name();
    write_pieces(
        &[
            "refused words ".as_bytes(),
            name.as_bytes(),
            "\n".as_bytes(),
        ],
        err,
    )
}

fn write_file_refusal<S: Sink>(
    file: &[u8],
    line: u64,
    rule: Rule,
    err: &mut S,
) -> Result<(), Failed>
    ensures later { S.faults err.old ≤ S.faults err.new }
    ensures writes { Writes (port S.Sink err.old err.new) (refusal_line (Refusal.File file.now line rule)) result }
{
    match write_pieces(&["refused ".as_bytes(), file, ":".as_bytes()], err) {
        Ok(()) => write_place(line, rule, err),
        Err(failed) => Err(failed),
    }
}

fn write_place<S: Sink>(line: u64, rule: Rule, err: &mut S) -> Result<(), Failed>
    ensures later { S.faults err.old ≤ S.faults err.new }
    ensures writes { Writes (port S.Sink err.old err.new) (place_text line rule) result }
{
    let mut digits = Buffer::new();
    let line = digits.format(line);
    let name = rule.name();
    write_pieces(
        &[
            line.as_bytes(),
            " ".as_bytes(),
            name.as_bytes(),
            "\n".as_bytes(),
        ],
        err,
    )
}

/// Writes the line of a fault on a file. It takes no memory.
pub(crate) fn write_read_fault<S: Sink>(file: &[u8], err: &mut S) -> Result<(), Failed>
    ensures later { S.faults err.old ≤ S.faults err.new }
    ensures writes { Writes (port S.Sink err.old err.new) (read_fault_line file.now) result }
{
    write_pieces(&["read fault ".as_bytes(), file, "\n".as_bytes()], err)
}
