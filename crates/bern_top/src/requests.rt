ghost use Rattle.std.specs.Prelude.{◌≡◌, ℕ, Some, map, string_bytes, IfSome, IsNone, IfOk, IfErr};
ghost use Rattle.bern_top.specs.Requests.{IsRanks, IsSeed, IsRequest, RefusesBy, RefusesRun, RefusesReplay, RefusesOnRanks, RefusesPlan, RefusesExercise, RefusesWords, GivesRequest, HasRequest, request, name_of, first_name};

use crate::numerals::numeral;
use bern_base::{MOST_RANKS, Rule, Text};
use std::alloc::Global;
use thiserror::Error;

/// What the words of the command line ask for: a command over a job.
#[derive(Debug, Drop)]
pub struct Request {
    /// The name of the job's file.
    pub job: Text,
    pub command: Command,
}

/// What is done with a job.
#[derive(Clone, Copy, Debug)]
pub enum Command {
    /// It is run on so many ranks, 1 to 64.
    Run { ranks: u32 },
    /// Its plans are printed.
    Plan,
    /// It is run on so many ranks in an order of events that the seed chooses.
    Replay { ranks: u32, seed: u64 },
}

/// Why words give no request.
#[derive(Debug, Drop, Error)]
pub enum WordsError {
    #[error("the words break a rule")]
    Refused(Rule),
    #[error("out of memory")]
    NoMemory,
}

/// The commands by their names.
#[derive(Clone, Copy)]
pub enum CommandName {
    Run,
    Report,
    Plan,
    Sets,
    Replay,
    Exercise,
}

/// The request of these words, or the first rule of words that they break. Words that break one take no memory.
pub(crate) fn request_of(alloc: Global, words: &[String]) -> Result<Request, WordsError>
    ensures found { IfOk result (IsRequest (map string_bytes words.now)) }
    ensures refused { IfErr result (RefusesBy (RefusesWords (map string_bytes words.now)) (HasRequest (map string_bytes words.now))) }
{
    match name_in(words) {
        None => Err(WordsError::Refused(Rule::C1)),
        Some(CommandName::Run) => run_of(alloc, words),
        Some(CommandName::Report) => Err(WordsError::Refused(unbuilt_on_ranks(words))),
        Some(CommandName::Plan) => plan_of(alloc, words),
        Some(CommandName::Sets) => Err(WordsError::Refused(unbuilt_on_ranks(words))),
        Some(CommandName::Replay) => replay_of(alloc, words),
        Some(CommandName::Exercise) => Err(WordsError::Refused(unbuilt_exercise(words))),
    }
}

/// The request for a command over the job of this name.
fn request_for(alloc: Global, job: &String, command: Command) -> Result<Request, WordsError>
    ensures { GivesRequest (request (string_bytes job.now) command) result }
{
    match Text::from_bytes(alloc, job.as_bytes()) {
        Ok(job) => Ok(Request { job, command }),
        Err(_) => Err(WordsError::NoMemory),
    }
}

/// The name that the first word is.
fn name_in(words: &[String]) -> Option<CommandName>
    ensures { result ≡ first_name (map string_bytes words.now) }
{
    match words {
        [] => None,
        [word, ..] => name_of(word.as_bytes()),
    }
}

fn name_of(word: &[u8]) -> Option<CommandName>
    ensures { result ≡ name_of word.now }
{
    if word == b"run".as_slice() {
        Some(CommandName::Run)
    } else if word == b"report".as_slice() {
        Some(CommandName::Report)
    } else if word == b"plan".as_slice() {
        Some(CommandName::Plan)
    } else if word == b"sets".as_slice() {
        Some(CommandName::Sets)
    } else if word == b"replay".as_slice() {
        Some(CommandName::Replay)
    } else if word == b"exercise".as_slice() {
        Some(CommandName::Exercise)
    } else {
        None
    }
}

fn ranks_of(word: &[u8]) -> Option<u32>
    ensures found { IfSome result (IsRanks word.now) }
    ensures none { IsNone result → (n : ℕ) → IsRanks word.now n → ⊥ }
{
    match numeral(word) {
        Some(number) if 1 <= number && number <= MOST_RANKS as u64 => Some(number as u32),
        _ => None,
    }
}

fn seed_of(word: &[u8]) -> Option<u64>
    ensures found { IfSome result (IsSeed word.now) }
    ensures none { IsNone result → (n : ℕ) → IsSeed word.now n → ⊥ }
{
    numeral(word)
}

/// `run JOB RANKS`
fn run_of(alloc: Global, words: &[String]) -> Result<Request, WordsError>
    requires { first_name (map string_bytes words.now) ≡ Some CommandName.Run }
    ensures found { IfOk result (IsRequest (map string_bytes words.now)) }
    ensures refused { IfErr result (RefusesBy (RefusesRun (map string_bytes words.now)) (HasRequest (map string_bytes words.now))) }
{
    match words {
        [_, job, ranks] => match ranks_of(ranks.as_bytes()) {
            Some(ranks) => request_for(alloc, job, Command::Run { ranks }),
            None => Err(WordsError::Refused(Rule::C3)),
        },
        _ => Err(WordsError::Refused(Rule::C2)),
    }
}

/// `plan JOB`
fn plan_of(alloc: Global, words: &[String]) -> Result<Request, WordsError>
    requires { first_name (map string_bytes words.now) ≡ Some CommandName.Plan }
    ensures found { IfOk result (IsRequest (map string_bytes words.now)) }
    ensures refused { IfErr result (RefusesBy (RefusesPlan (map string_bytes words.now)) (HasRequest (map string_bytes words.now))) }
{
    match words {
        [_, job] => request_for(alloc, job, Command::Plan),
        _ => Err(WordsError::Refused(Rule::C2)),
    }
}

/// `replay JOB RANKS SEED`
fn replay_of(alloc: Global, words: &[String]) -> Result<Request, WordsError>
    requires { first_name (map string_bytes words.now) ≡ Some CommandName.Replay }
    ensures found { IfOk result (IsRequest (map string_bytes words.now)) }
    ensures refused { IfErr result (RefusesBy (RefusesReplay (map string_bytes words.now)) (HasRequest (map string_bytes words.now))) }
{
    match words {
        [_, job, ranks, seed] => match ranks_of(ranks.as_bytes()) {
            Some(ranks) => match seed_of(seed.as_bytes()) {
                Some(seed) => request_for(alloc, job, Command::Replay { ranks, seed }),
                None => Err(WordsError::Refused(Rule::C4)),
            },
            None => Err(WordsError::Refused(Rule::C3)),
        },
        _ => Err(WordsError::Refused(Rule::C2)),
    }
}

/// `report JOB RANKS` and `sets JOB RANKS`, which are not built yet.
fn unbuilt_on_ranks(words: &[String]) -> Rule
    ensures { RefusesOnRanks (map string_bytes words.now) result }
{
    match words {
        [_, _, ranks] => match ranks_of(ranks.as_bytes()) {
            Some(_) => Rule::U1,
            None => Rule::C3,
        },
        _ => Rule::C2,
    }
}

/// `exercise SEED RANKS`, which is not built yet.
fn unbuilt_exercise(words: &[String]) -> Rule
    ensures { RefusesExercise (map string_bytes words.now) result }
{
    match words {
        [_, seed, ranks] => match ranks_of(ranks.as_bytes()) {
            Some(_) => match seed_of(seed.as_bytes()) {
                Some(_) => Rule::U1,
                None => Rule::C4,
            },
            None => Rule::C3,
        },
        _ => Rule::C2,
    }
}
