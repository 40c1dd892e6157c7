use bern_base::{Items, Text};
use bern_ports::{DirShelf, Failed, MemShelf, MemSink, Shelf, Sink, StdSink, SureSink, are_once};
use std::alloc::Global;
use std::fs;
use std::test::Fail;

fn pair(alloc: Global, name: &[u8], bytes: &[u8]) -> Result<(Text, Text), bern_base::NoMemory> {
    Ok((
        Text::from_bytes(alloc, name)?,
        Text::from_bytes(alloc, bytes)?,
    ))
}

/// The bytes that reads of at most 8 bytes give, up to `turns` reads.
fn read_through<S: Shelf>(
    alloc: Global,
    shelf: &mut S,
    name: &Text,
    turns: u32,
) -> Result<Vec<u8>, Fail> {
    let mut all = Vec::new(alloc);
    if shelf.begin(name).is_err() {
        return Ok(all);
    }
    for _ in 0..turns {
        let mut buf = [0; 8];
        match shelf.read(&mut buf) {
            Ok(count) => all.extend_from_slice(&buf[..count])?,
            Err(Failed) => all.push(b'!')?,
        }
    }
    Ok(all)
}

#[test]
fn files_in_memory_are_read_in_pieces_and_listed_calls_fail(rt: HostRuntime) -> Result<(), Fail> {
    let alloc = rt.alloc();
    let mut files = Vec::new(alloc);
    files.push(pair(alloc, b"a", b"abcdefg")?)?;
    let mut fails = Vec::new(alloc);
    fails.push((Text::from_bytes(alloc, b"a")?, 2u64))?;
    let name = Text::from_bytes(alloc, b"a")?;
    let files = Items::from_vec(files);
    assert!(rt; are_once(&files));
    let mut shelf = MemShelf::new(alloc, files, 3, Items::from_vec(fails))?;
    assert_eq!(rt;
        read_through(alloc, &mut shelf, &name, 5)?.as_slice(),
        b"abc!defg".as_slice()
    );
    Ok(())
}

#[test]
fn a_sink_in_memory_takes_pieces_and_fails_where_it_is_told_or_full(
    rt: HostRuntime,
) -> Result<(), Fail> {
    let alloc = rt.alloc();
    let fails = Items::from_slice(alloc, &[1])?;
    let mut sink = MemSink::new(alloc, 4, 6, fails)?;
    assert_eq!(rt; sink.write(b"abcdef").ok(), Some(4));
    assert_eq!(rt; sink.write(b"efg").ok(), None);
    assert_eq!(rt; sink.write(b"efg").ok(), Some(2));
    assert_eq!(rt; sink.write(b"g").ok(), None);
    assert_eq!(rt; sink.bytes(), b"abcdef".as_slice());
    let mut sure = SureSink::new();
    assert_eq!(rt; sure.write(b"abc").ok(), Some(3));
    Ok(())
}

#[test]
fn files_of_the_folder_are_read(rt: HostRuntime) -> Result<(), Fail> {
    fs::write(&rt, "here.txt", "0123456789")?;
    let mut shelf = DirShelf::new(&rt);
    let here = Text::from_bytes(rt.alloc(), b"here.txt")?;
    assert_eq!(rt;
        read_through(rt.alloc(), &mut shelf, &here, 3)?.as_slice(),
        b"0123456789".as_slice()
    );
    let missing = Text::from_bytes(rt.alloc(), b"missing.txt")?;
    assert!(rt; shelf.begin(&missing).is_err());
    Ok(())
}

#[test]
fn both_streams_take_bytes(rt: HostRuntime) {
    assert!(rt; StdSink::out(&rt).write(b"to standard output\n").is_ok());
    assert!(rt; StdSink::err(&rt).write(b"to standard error\n").is_ok());
}
