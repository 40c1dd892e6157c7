ghost use Rattle.std.specs.Prelude.{◌≡◌, ◌↔◌, ◌<◌, ◌≤◌, length, replicate, min, Some, IfOk, IsTrue, true, false, ◌==◌, ◌-◌, ◌+◌, slice_index, slice_set, take, drop, ◌++◌, [], ◌^◌, is_err, IsOk, IsSome, OnErr, OnOk};
ghost use Rattle.bern_ports.specs.Files.{file_at, place_of, bytes_of, AreOnce, BlamesOnly, StandsAtStart};
ghost use Rattle.bern_ports.specs.MemShelf.{count_of, counted, one_more, is_listed, is_faulty};
ghost use Rattle.bern_ports.specs.Causes.{HasCause};
ghost use Rattle.std.specs.Io.{ReadsAtMost};
ghost use Rattle.std.specs.Io.KnownBytes.{ReadConsumes};
ghost use Rattle.std.proofs.Common.{rules};

use crate::faults::fault;
use crate::ports::{Failed, Shelf};
use bern_base::{Items, NoMemory, Text};
use std::alloc::Global;

/// Files in memory, with a list of the calls that are to fail.
///
/// The calls on a name count from 0, and each `begin` and each `read` is one. A read gives at most `chunk` bytes.
#[derive(Drop)]
pub struct MemShelf {
    files: Items<(Text, Text)>,
    chunk: u32,
    fails: Items<(Text, u64)>,
    /// How many calls there were on each file, and how many of them failed.
    calls: Items<u64>,
    faults_by_file: Items<u64>,
    faults: u64,
    begun: bool,
    at: usize,
    offset: usize,
    pub ghost once: { AreOnce files },
    pub ghost chunks: { 0 < chunk },
    pub ghost calls_beside: { length calls ≡ length files },
    pub ghost faults_beside: { length faults_by_file ≡ length files },
    pub ghost place: { begun ≡ true → at < length files },
    pub ghost within: { begun ≡ true → offset ≤ length (file_at files at).1 },
}

impl MemShelf {
    /// A shelf of these files, no name twice. The pair `(name, k)` makes the k-th call on that name fail.
    pub fn new(
        alloc: Global,
        files: Items<(Text, Text)>,
        chunk: u32,
        fails: Items<(Text, u64)>,
    ) -> Result<MemShelf, NoMemory>
        requires chunks { 0 < chunk }
        requires once { AreOnce files }
        ensures { IfOk result (λ s. (s.files ≡ files) × (s.chunk ≡ chunk) × (s.fails ≡ fails) × (s.faults ≡ 0)
            × (s.calls ≡ replicate (length files) 0) × (s.faults_by_file ≡ replicate (length files) 0) × (s.begun ≡ false)) }
    {
        let count = files.len();
        let calls = Items::from_vec(vec![in alloc; 0; count]?);
        let faults_by_file = Items::from_vec(vec![in alloc; 0; count]?);
        Ok(MemShelf {
            files,
            chunk,
            fails,
            calls,
            faults_by_file,
            faults: 0,
            begun: false,
            at: 0,
            offset: 0,
        })
    }
}

/// The place of the file of that name.
fn place(files: &Items<(Text, Text)>, name: &Text) -> Option<usize>
    ensures { result ≡ place_of files.now name.now }
{
    files
        .as_slice()
        .iter()
        .position(|file| file.0.as_bytes() == name.as_bytes())
}

/// Whether the first file of that name is this one.
fn is_first(files: &Items<(Text, Text)>, at: usize) -> bool
    requires { at < length files.now }
    ensures { IsTrue result ↔ (place_of files.now (file_at files.now at).0 ≡ Some at) }
{
    place(files, &file_of(files, at).0) == Some(at)
}

/// Whether no name stands twice.
pub fn are_once(files: &Items<(Text, Text)>) -> bool
    ensures { IsTrue result ↔ AreOnce files.now }
{
    for at in 0..files.len() {
        if !is_first(files, at) {
            return false;
        }
    }
    true
}

/// Whether a call of this number on this name is to fail.
fn is_to_fail(fails: &[(Text, u64)], name: &[u8], call: u64) -> bool
    ensures { result ≡ is_listed fails.now name.now call }
{
    fails
        .iter()
        .any(|fail| fail.0.as_bytes() == name && fail.1 == call)
}

fn file_of(files: &Items<(Text, Text)>, at: usize) -> &(Text, Text)
    requires { at < length files.now }
    ensures { result.now ≡ file_at files.now at }
{
    files.at(at)
}

/// Counts a call, and answers its number.
fn count_call(calls: &mut Items<u64>, at: usize) -> u64
    requires { at < length calls.old }
    ensures call { result ≡ slice_index calls.old at }
    ensures counts { calls.new ≡ slice_set calls.old at (one_more (slice_index calls.old at)) }
    ensures length { length calls.new ≡ length calls.old }
{
    let call = calls.as_slice()[at];
    calls.set(at, call.saturating_add(1));
    call
}

/// Counts a fault on a file.
fn count_fault(faults: &mut Items<u64>, at: usize)
    requires { at < length faults.old }
    ensures count { faults.new ≡ slice_set faults.old at (one_more (slice_index faults.old at)) }
    ensures fits { slice_index faults.old at < 2 ^ 64 }
{
    let count = faults.as_slice()[at];
    faults.set(at, count.saturating_add(1));
}

/// Puts at most `chunk` of the bytes from `offset` on into the front of `buf`, and answers how many.
fn give(bytes: &[u8], offset: usize, chunk: u32, buf: &mut [u8]) -> usize
    requires within { offset ≤ length bytes.now }
    requires some { 0 < chunk }
    requires room { 0 < length buf.old }
    ensures bound { result ≤ length buf.new }
    ensures next { drop offset bytes.now ≡ take result buf.new ++ drop (offset + result) bytes.now }
    ensures within { offset + result ≤ length bytes.now }
    ensures chunk { result ≤ chunk }
    ensures some { result ≡ 0 → drop offset bytes.now ≡ [] }
{
    let rest = &bytes[offset..];
    let count = (chunk as usize).min(rest.len().min(buf.len()));
    buf[..count].copy_from_slice(&rest[..count]);
    count
}

impl Shelf for MemShelf {
    ghost files = { λ s. Some s.files };

    ghost begun = { λ s. s.begun };

    ghost current = { λ s. (file_at s.files s.at).0 };

    ghost left = { λ s. Some (drop s.offset (file_at s.files s.at).1) };

    ghost faults = { λ s. s.faults };

    ghost faults_on = { λ s name. count_of s.files s.faults_by_file name };

    ghost sure = { λ s. length s.fails == 0 };

    fn begin(&mut self, name: &Text) -> Result<(), Failed>
        ensures files { Some self.new.files ≡ Some self.old.files }
        ensures fails { self.new.fails ≡ self.old.fails }
        ensures sure { (length self.new.fails == 0) ≡ (length self.old.fails == 0) }
        ensures begun { OnOk result (IsTrue self.new.begun) }
        ensures start { OnOk result (StandsAtStart self.old.files name.now
            (file_at self.new.files self.new.at).0 (Some (drop self.new.offset (file_at self.new.files self.new.at).1))) }
        ensures none { OnErr result (self.new.begun ≡ false) }
        ensures cause { HasCause self.old.faults self.new.faults result }
        ensures blame { BlamesOnly (Some self.old.files) name.now
            (count_of self.old.files self.old.faults_by_file) (count_of self.new.files self.new.faults_by_file) result }
        ensures calls { self.new.calls ≡ counted self.old.calls (place_of self.old.files name.now) }
        ensures at { OnOk result (place_of self.old.files name.now ≡ Some self.new.at) }
        ensures exact { is_err result ≡ is_faulty self.old.files self.old.fails self.old.calls name.now }
        ensures chunk { self.new.chunk ≡ self.old.chunk }
        ensures succeeds { IsTrue (length self.old.fails == 0) → IsSome (bytes_of self.old.files name.now) → IsOk result }
    {
        self.begun = false;
        match place(&self.files, name) {
            None => Err(fault(&mut self.faults)),
            Some(at) => {
                let call = count_call(&mut self.calls, at);
                if is_to_fail(self.fails.as_slice(), name.as_bytes(), call) {
                    count_fault(&mut self.faults_by_file, at);
                    return Err(fault(&mut self.faults));
                }
                self.begun = true;
                self.at = at;
                self.offset = 0;
                Ok(())
            }
        }
    }

    fn read(&mut self, buf: &mut [u8]) -> Result<usize, Failed>
        requires begun { IsTrue self.old.begun }
        requires room { 0 < length buf.old }
        ensures files { Some self.new.files ≡ Some self.old.files }
        ensures fails { self.new.fails ≡ self.old.fails }
        ensures sure { (length self.new.fails == 0) ≡ (length self.old.fails == 0) }
        ensures begun { IsTrue self.new.begun }
        ensures current { (file_at self.new.files self.new.at).0 ≡ (file_at self.old.files self.old.at).0 }
        ensures bound { ReadsAtMost result buf.new }
        ensures bytes { ReadConsumes (Some (drop self.old.offset (file_at self.old.files self.old.at).1))
            (Some (drop self.new.offset (file_at self.new.files self.new.at).1)) result buf.new }
        ensures cause { HasCause self.old.faults self.new.faults result }
        ensures blame { BlamesOnly (Some self.old.files) (file_at self.old.files self.old.at).0
            (count_of self.old.files self.old.faults_by_file) (count_of self.new.files self.new.faults_by_file) result }
        ensures calls { self.new.calls ≡ counted self.old.calls (Some self.old.at) }
        ensures at { self.new.at ≡ self.old.at }
        ensures exact { is_err result
            ≡ is_listed self.old.fails (file_at self.old.files self.old.at).0 (slice_index self.old.calls self.old.at) }
        ensures chunk { self.new.chunk ≡ self.old.chunk }
        ensures at_most { IfOk result (λ n. n ≤ self.old.chunk) }
        ensures succeeds { IsTrue (length self.old.fails == 0) → IsOk result }
    {
        let call = count_call(&mut self.calls, self.at);
        let file = file_of(&self.files, self.at);
        if is_to_fail(self.fails.as_slice(), file.0.as_bytes(), call) {
            count_fault(&mut self.faults_by_file, self.at);
            return Err(fault(&mut self.faults));
        }
        let count = give(file.1.as_bytes(), self.offset, self.chunk, buf);
        self.offset += count;
        Ok(count)
    }

    ghost sure_tells = { λ s t. Prim.search rules };
}
