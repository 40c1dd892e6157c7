//! What the program meets outside: a source of files and takers of bytes, each behind a trait with its count of faults.
//!
//! `MemShelf`, `MemSink` and `SureSink` are of memory and tell what they hold; `DirShelf` and `StdSink` are the real ones.
#![tactic(auto)]

mod dir_shelf;
mod faults;
mod mem_shelf;
mod mem_sink;
mod ports;
mod std_sink;
mod sure_sink;

pub use dir_shelf::DirShelf;
pub use mem_shelf::{MemShelf, are_once};
pub use mem_sink::MemSink;
pub use ports::{Failed, Shelf, Sink};
pub use std_sink::StdSink;
pub use sure_sink::SureSink;
