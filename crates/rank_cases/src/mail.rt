ghost use Rattle.std.specs.Prelude.{◌≡◌, ◌≤◌, ◌<◌, ◌++◌, ◌∷◌, [], IfOk, IfSome, length};
ghost use Rattle.rank_mail.specs.Desks.{IsNewIssue, IsIssue, IsSameEnd};
ghost use Rattle.rank_mail.specs.Examples.{numbered, alike, IsReady};

use bern_base::{Items, Letter, NoMemory};
use rank_mail::{End, Office};
use std::alloc::Global;
use std::sync::Wait;
use std::test::Fail;
use std::thread::Threads;
use std::{fs, thread};

const MANY: u32 = 1000;

// A letter with this number, which holds room for so many values and none of them.
fn letter_of(alloc: Global, number: u32, room: usize) -> Result<Letter, NoMemory>
    ensures { IfOk result (λ letter. letter ≡ numbered number) }
{
    let values = Vec::with_capacity(alloc, room)?;
    Ok(Letter::Values {
        turn: number,
        values: Items::from_vec(values),
    })
}

// The number of a letter.
fn number_of(letter: &Letter) -> Option<u32> {
    match letter {
        Letter::Values { turn, values: _ } => Some(*turn),
        _ => None,
    }
}

// Posts letters 0, 1, .. to a rank: so many of those that are due.
fn post_some<R: Wait>(
    rt: &R,
    alloc: Global,
    end: &mut End,
    to: u32,
    count: u32,
    room: usize,
) -> Result<(), NoMemory>
    requires few { count ≤ MANY }
    requires ready { IsReady MANY end.old to }
    ensures { IsSameEnd end.old end.new }
{
    for number in 0..count {
        let letter = letter_of(alloc, number, room)?;
        match end.post(rt, to, letter) {
            Ok(()) => {}
            Err(_) => return Err(NoMemory),
        }
    }
    Ok(())
}

// Takes so many letters, and counts those that come with the next number.
fn take_some<R: Wait>(rt: &R, end: &mut End, count: u32) -> u32
    ensures { IsSameEnd end.old end.new }
{
    let mut came = 0;
    let mut in_order = 0;
    for _ in rt.forever() {
        if came >= count {
            break;
        }
        match end.take(rt) {
            Some((_, letter)) => {
                if number_of(&letter) == Some(came) && in_order < MANY {
                    in_order += 1;
                }
                came += 1;
            }
            None => thread::yield_now(),
        }
    }
    in_order
}

// Posts all letters to the other rank and takes all of its letters.
fn exchange<R: Wait>(rt: &R, alloc: Global, mut end: End, other: u32) -> (End, u32)
    requires { IsReady MANY end other }
    ensures { IsSameEnd end result.0 }
{
    match post_some(rt, alloc, &mut end, other, MANY, 0) {
        Ok(()) => {
            let in_order = take_some(rt, &mut end, MANY);
            (end, in_order)
        }
        Err(_) => (end, 0),
    }
}

// The ends of two ranks, each of which has all letters to post to the other.
fn two_ends(alloc: Global, office: &mut Office) -> Result<(End, End), NoMemory>
    ensures issue { IfOk result (λ ends. IsIssue (alike MANY) 2 (ends.0 ∷ ends.1 ∷ [])) }
    ensures first { IfOk result (λ ends. IsReady MANY ends.0 1) }
    ensures second { IfOk result (λ ends. IsReady MANY ends.1 0) }
{
    let mut ends = office.issue(alloc, 2)?;
    match (ends.pop(), ends.pop()) {
        (Some(second), Some(first)) => Ok((first, second)),
        _ => unreachable!(),
    }
}

// How many letters came in order to each of two ranks, in threads of their own, after which the office is closed.
fn both_ways<R: Threads + Wait + Sync>(
    rt: &R,
    alloc: Global,
    office: &mut Office,
) -> Result<(u32, u32), NoMemory> {
    let (first, second) = two_ends(alloc, office)?;
    let ((first, to_first), (second, to_second)) = thread::join(
        rt,
        move ||
            requires { IsReady MANY first 1 }
            ensures { IsSameEnd first result.0 }
        { exchange(rt, alloc, first, 1) },
        move ||
            requires { IsReady MANY second 0 }
            ensures { IsSameEnd second result.0 }
        { exchange(rt, alloc, second, 0) },
    );
    let mut ends = Items::new(alloc);
    ends.push(first)?;
    ends.push(second)?;
    match office.close(rt, ends) {
        Ok(()) => Ok((to_first, to_second)),
        Err(_) => Err(NoMemory),
    }
}

#[test]
fn a_thousand_letters_each_way_come_in_order(rt: HostRuntime) -> Result<(), Fail> {
    let mut office = Office::new(rt.alloc());
    for _ in 0..2 {
        let came = both_ways(&rt, rt.alloc(), &mut office)?;
        assert_eq!(rt; came, (MANY, MANY));
    }
    Ok(())
}

// The memory of this process, in pages, as the system counts it.
fn pages(rt: &HostRuntime) -> Result<u64, Fail> {
    let text = fs::read_to_string(rt, "/proc/self/statm")?;
    let first = text.as_str().split(' ').next().ok_or("an empty file")?;
    Ok(first.parse::<u64>()?)
}

#[test]
fn letters_in_flight_go_with_their_ends(rt: HostRuntime) -> Result<(), Fail> {
    let before = pages(&rt)?;
    for _ in 0..64 {
        let mut office = Office::new(rt.alloc());
        let (mut first, second) = two_ends(rt.alloc(), &mut office)?;
        // Eight letters with room for 4 MB each.
        post_some(&rt, rt.alloc(), &mut first, 1, 8, 524288)?;
        drop(first);
        drop(second);
    }
    let after = pages(&rt)?;
    assert!(rt;
        after.saturating_sub(before) < 131072,
        "{before} pages before, {after} after"
    );
    Ok(())
}
