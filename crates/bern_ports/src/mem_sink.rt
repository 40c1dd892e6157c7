ghost use Rattle.std.specs.Prelude.{◌≡◌, ◌-◌, ◌<◌, ◌≤◌, ◌==◌, ◌||◌, [], length, min, Some, IfOk, vec_len, vec_capacity, is_err};
ghost use Rattle.std.specs.Io.{WritesAtMost};
ghost use Rattle.std.specs.Io.KnownBytes.{WriteAppends};
ghost use Rattle.std.specs.List.{list_any};
ghost use Rattle.bern_ports.specs.Causes.{HasCause};
ghost use Rattle.bern_ports.specs.MemShelf.{one_more};

use crate::faults::fault;
use crate::ports::{Failed, Sink};
use bern_base::{Items, NoMemory};
use std::alloc::Global;

/// Bytes in memory, with a list of the writes that are to fail.
///
/// A write takes at most `chunk` bytes and at most the room that is left; writes count from 0.
#[derive(Drop)]
pub struct MemSink {
    bytes: Vec<u8>,
    chunk: u32,
    room: u32,
    fails: Items<u64>,
    writes: u64,
    faults: u64,
    pub ghost chunks: { 0 < chunk },
    pub ghost within: { vec_len bytes ≤ room },
    pub ghost reserved: { room ≤ vec_capacity bytes },
}

impl MemSink {
    /// An empty sink with room for `room` bytes.
    pub fn new(alloc: Global, chunk: u32, room: u32, fails: Items<u64>) -> Result<MemSink, NoMemory>
        requires { 0 < chunk }
        ensures { IfOk result (λ s. (s.bytes.items ≡ []) × (s.chunk ≡ chunk) × (s.room ≡ room) × (s.fails ≡ fails)
            × (s.writes ≡ 0) × (s.faults ≡ 0)) }
    {
        let bytes = Vec::with_capacity(alloc, room as usize)?;
        Ok(MemSink {
            bytes,
            chunk,
            room,
            fails,
            writes: 0,
            faults: 0,
        })
    }

    /// What was written.
    pub fn bytes(&self) -> &[u8]
        ensures { result.now ≡ self.now.bytes.items }
    {
        self.bytes.as_slice()
    }

    fn is_to_fail(&self) -> bool
        ensures { result ≡ list_any (λ k. k == self.now.writes) self.now.fails }
    {
        let write = self.writes;
        self.fails.as_slice().iter().any(|k| *k == write)
    }
}

impl Sink for MemSink {
    ghost written = { λ s. Some s.bytes.items };

    ghost faults = { λ s. s.faults };

    fn write(&mut self, piece: &[u8]) -> Result<usize, Failed>
        requires { 0 < length piece.now }
        ensures bound { WritesAtMost result piece.now }
        ensures some { IfOk result (λ n. 0 < n) }
        ensures bytes { WriteAppends (Some self.old.bytes.items) (Some self.new.bytes.items) result piece.now }
        ensures cause { HasCause self.old.faults self.new.faults result }
        ensures exact { is_err result
            ≡ (list_any (λ k. k == self.old.writes) self.old.fails || length self.old.bytes.items == self.old.room) }
        ensures writes { self.new.writes ≡ one_more self.old.writes }
        ensures stays { (self.new.chunk ≡ self.old.chunk) × (self.new.room ≡ self.old.room) × (self.new.fails ≡ self.old.fails) }
        ensures takes { IfOk result
            (λ n. n ≡ min self.old.chunk (min (self.old.room - length self.old.bytes.items) (length piece.now))) }
    {
        let to_fail = self.is_to_fail();
        self.writes = self.writes.saturating_add(1);
        let left = self.room as usize - self.bytes.len();
        if to_fail || left == 0 {
            return Err(fault(&mut self.faults));
        }
        let count = (self.chunk as usize).min(left.min(piece.len()));
        match self.bytes.extend_from_slice(&piece[..count]) {
            Ok(()) => Ok(count),
            Err(_) => unreachable!(),
        }
    }
}
