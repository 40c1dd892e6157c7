ghost use Rattle.std.specs.Prelude.{◌≡◌, Err, map, string_bytes, IfSome};
ghost use Rattle.bern_ports.specs.Frames.{KeepsShelf, port, shelf_state};
ghost use Rattle.job_files.specs.Answers.{HasFaultCause};
ghost use Rattle.bern_top.specs.Answers.{AnswersWords, HasLine, IsWordsRefusal};
ghost use Rattle.bern_top.specs.Lines.{memory_line};
ghost use Rattle.bern_top.specs.Requests.{RefusesWords};
ghost use Rattle.bern_top.specs.Top.{IsStatus, SaysDone, SaysRefused, SaysWords, SaysReadFault, SaysWriteFault, SaysMemory, SaysDue, SaysRefusal, PrintsText, TellsFault};

use crate::calls::{plan_call, replay_call, run_call};
use crate::lines::{write_read_fault, write_refusal};
use crate::requests::{Command, WordsError, request_of};
use crate::writing::write_whole;
use bern_base::{Refusal, Rule, Steps, Text};
use bern_ports::{Shelf, Sink};
use job_files::LoadError;
use std::alloc::Global;
use std::sync::ledger::Ledger;

const DONE: u8 = 0;

const REFUSED: u8 = 2;

const READ_FAULT: u8 = 3;

const WRITE_FAULT: u8 = 4;

const OUT_OF_MEMORY: u8 = 5;

/// Does the command of these words and answers its status.
///
/// 0: done, and the whole text is on `out`. 2: refused. 3: a call of the shelf failed. 4: a write on `out` failed.
/// 5: want of memory. Where the status is not 0, `err` has one line that says why, or a front of it where a write on `err`
/// failed. Over a shelf that tells its files the clauses say which text is due, what is refused first, and at which files a
/// fault can be. The files stay, and no count of faults falls, so that several calls in a row can be reasoned about.
pub fn bernoulli<F: Shelf, S: Sink, L: Ledger>(
    alloc: Global,
    words: &[String],
    shelf: &mut F,
    out: &mut S,
    err: &mut S,
    steps: &mut Steps<L>,
) -> u8
    ensures status { IsStatus result }
    ensures keeps { KeepsShelf (shelf_state F.Shelf shelf.old) (shelf_state F.Shelf shelf.new) }
    ensures done { SaysDone (map string_bytes words.now) (F.files shelf.old)
        (port S.Sink out.old out.new) (port S.Sink err.old err.new) result }
    ensures refused { SaysRefused (map string_bytes words.now) (F.files shelf.old)
        (port S.Sink out.old out.new) (port S.Sink err.old err.new) result }
    ensures words { SaysWords (map string_bytes words.now)
        (port S.Sink out.old out.new) (port S.Sink err.old err.new) result }
    ensures read_fault { SaysReadFault (map string_bytes words.now) (shelf_state F.Shelf shelf.old) (shelf_state F.Shelf shelf.new)
        (port S.Sink out.old out.new) (port S.Sink err.old err.new) result }
    ensures write_fault { SaysWriteFault (map string_bytes words.now) (F.files shelf.old)
        (port S.Sink out.old out.new) (port S.Sink err.old err.new) result }
    ensures memory { SaysMemory
        (port S.Sink out.old out.new) (port S.Sink err.old err.new) result }
    ensures due { SaysDue (map string_bytes words.now) (shelf_state F.Shelf shelf.old) (shelf_state F.Shelf shelf.new)
        (port S.Sink out.old out.new) result }
    ensures refusal { SaysRefusal (map string_bytes words.now) (shelf_state F.Shelf shelf.old) (shelf_state F.Shelf shelf.new)
        (port S.Sink err.old err.new) result }
{
    match text_of_words(alloc, words, shelf, steps) {
        Ok(text) => print(&text, out, err),
        Err(fault) => tell(&fault, err),
    }
}

/// The text that is due for these words. Words that break a rule read nothing and take no memory.
fn text_of_words<F: Shelf, L: Ledger>(
    alloc: Global,
    words: &[String],
    shelf: &mut F,
    steps: &mut Steps<L>,
) -> Result<Text, LoadError>
    ensures keeps { KeepsShelf (shelf_state F.Shelf shelf.old) (shelf_state F.Shelf shelf.new) }
    ensures cause { HasFaultCause (shelf_state F.Shelf shelf.old) (shelf_state F.Shelf shelf.new) result }
    ensures words { (rule : Rule) → RefusesWords (map string_bytes words.now) rule →
        result ≡ Err (LoadError.Refused (Refusal.Words rule)) }
    ensures told { IfSome (F.files shelf.old) (λ fs. AnswersWords fs (map string_bytes words.now) result) }
{
    match request_of(alloc, words) {
        Ok(request) => match request.command {
            Command::Run { ranks } => run_call(alloc, &request.job, ranks, false, shelf, steps),
            Command::Plan => plan_call(alloc, &request.job, shelf),
            Command::Replay { ranks, seed } => {
                replay_call(alloc, &request.job, ranks, seed, shelf, steps)
            }
        },
        Err(refused) => Err(no_request(refused)),
    }
}

/// Why words give no request.
fn no_request(refused: WordsError) -> LoadError
    ensures { IsWordsRefusal refused result }
{
    match refused {
        WordsError::Refused(rule) => LoadError::Refused(Refusal::Words { rule }),
        WordsError::NoMemory => LoadError::NoMemory,
    }
}

/// Writes the text, and answers the status.
fn print<S: Sink>(text: &Text, out: &mut S, err: &mut S) -> u8
    ensures { PrintsText (port S.Sink out.old out.new) (port S.Sink err.old err.new) text.now result }
{
    match write_whole(text.as_bytes(), out) {
        Ok(()) => DONE,
        Err(_) => {
            let _ = write_whole(b"write fault\n", err);
            WRITE_FAULT
        }
    }
}

/// Writes the line of an answer that is no text, and gives its status. It takes no memory.
fn tell<S: Sink>(fault: &LoadError, err: &mut S) -> u8
    ensures { TellsFault (port S.Sink err.old err.new) fault.now result }
{
    match fault {
        LoadError::Refused(refusal) => {
            let _ = write_refusal(refusal, err);
            REFUSED
        }
        LoadError::ReadFault { file } => {
            let _ = write_read_fault(file.as_bytes(), err);
            READ_FAULT
        }
        LoadError::NoMemory => want_of_memory(err),
    }
}

/// Says on `err` that memory was short, and answers the status for it, 5. It takes no memory.
pub fn want_of_memory<S: Sink>(err: &mut S) -> u8
    ensures status { result ≡ 5 }
    ensures line { HasLine (port S.Sink err.old err.new) memory_line }
{
    let _ = write_whole(b"out of memory\n", err);
    OUT_OF_MEMORY
}
