//! Tests of inputs and sinks: those in memory, and the real files and streams.

use sim_base::NoMemory;
use sim_outer::{
    ErrSink, FetchFault, FileInputs, Inputs, MAX_FETCHED, MemInputs, MemSink, NullSink, OutSink,
    PutFailed, Sink, Word,
};
use std::alloc::Global;
use std::path::PathBuf;
use std::test::Fail;
use std::{env, fs, process};

fn file(alloc: Global, name: &str, bytes: &[u8]) -> Result<(Word, Vec<u8>), NoMemory> {
    Ok((Word::new(alloc, name)?, Vec::from_slice(alloc, bytes)?))
}

/// Two files of one name, and a third; the third fetch fails.
fn three_files(alloc: Global) -> Result<MemInputs, NoMemory> {
    let mut files = Vec::new(alloc);
    files.push(file(alloc, "a", b"first")?)?;
    files.push(file(alloc, "a", b"second")?)?;
    files.push(file(alloc, "b", b"other")?)?;
    MemInputs::new(alloc, files, Vec::from_slice(alloc, &[3u32])?)
}

/// Whether a fetch returns these bytes.
fn gives<I: Inputs>(inputs: &mut I, alloc: Global, name: &str, bytes: &[u8]) -> bool {
    match inputs.fetch(alloc, name) {
        Ok(found) => found.as_slice() == bytes,
        Err(_) => false,
    }
}

/// Whether a fetch fails, for a reason other than out of memory.
fn fails<I: Inputs>(inputs: &mut I, alloc: Global, name: &str) -> bool {
    match inputs.fetch(alloc, name) {
        Ok(_) => false,
        Err(fault) => fault == FetchFault::Failed,
    }
}

#[test]
fn files_are_fetched_by_name(rt: HostRuntime) -> Result<(), Fail> {
    let mut inputs = three_files(rt.alloc())?;
    assert!(rt; gives(&mut inputs, rt.alloc(), "b", b"other"));
    assert!(rt; gives(&mut inputs, rt.alloc(), "a", b"first"));
    assert!(rt; fails(&mut inputs, rt.alloc(), "a"), "the third call fails");
    assert!(rt; gives(&mut inputs, rt.alloc(), "a", b"first"));
    assert!(rt;
        fails(&mut inputs, rt.alloc(), "c"),
        "there is no such file"
    );
    Ok(())
}

/// A sink of this capacity, whose second call fails after this number of bytes.
fn failing_sink(alloc: Global, capacity: usize, takes: usize) -> Result<MemSink, NoMemory> {
    MemSink::new(alloc, capacity, Vec::from_slice(alloc, &[(2u32, takes)])?)
}

/// Whether a put fails, and leaves the sink with these bytes.
fn is_cut(sink: &mut MemSink, piece: &[u8], bytes: &[u8]) -> bool {
    sink.put(piece) == Err(PutFailed) && sink.bytes() == bytes
}

#[test]
fn a_sink_takes_what_fits(rt: HostRuntime) -> Result<(), Fail> {
    let mut sink = failing_sink(rt.alloc(), 8, 2)?;
    assert!(rt; sink.put(b"abc").is_ok());
    assert!(rt;
        is_cut(&mut sink, b"defg", b"abcde"),
        "the second call fails"
    );
    assert!(rt;
        is_cut(&mut sink, b"fghi", b"abcdefgh"),
        "there is no place for more"
    );
    assert!(rt; sink.put(b"").is_ok());
    assert!(rt; is_cut(&mut sink, b"i", b"abcdefgh"));
    assert!(rt; NullSink.put(b"abc").is_ok());
    Ok(())
}

/// Whether two parts and the rest are taken.
fn takes_parts<S: Sink>(sink: &mut S, parts: [&[u8]; 2], rest: &[u8]) -> bool {
    sink.put_part(parts[0]).is_ok() && sink.put_part(parts[1]).is_ok() && sink.put(rest).is_ok()
}

#[test]
fn parts_and_the_rest_are_one_call(rt: HostRuntime) -> Result<(), Fail> {
    let mut sink = failing_sink(rt.alloc(), 64, 5)?;
    assert!(rt; takes_parts(&mut sink, [b"clone ", b"base"], b"\n"));
    assert!(rt; sink.put_part(b"3 g").is_ok() && sink.put_part(b"ate") == Err(PutFailed));
    assert!(rt; sink.put(b"!").is_ok());
    assert!(rt; sink.bytes() == b"clone base\n3 gat!".as_slice());
    Ok(())
}

/// A file of this size, in which no two adjacent runs of bytes are equal.
fn long_file(alloc: Global, size: usize) -> Result<Vec<u8>, NoMemory> {
    let mut bytes = Vec::with_capacity(alloc, size)?;
    for i in 0..size {
        bytes.push((i % 251) as u8)?;
    }
    Ok(bytes)
}

/// Whether these are the first bytes of a long file.
fn begin_long_file(bytes: &[u8]) -> bool {
    for (i, byte) in bytes.iter().enumerate() {
        if usize::from(*byte) != i % 251 {
            return false;
        }
    }
    true
}

/// A path that only this process uses.
fn path_of_own(rt: &HostRuntime, name: &str) -> Result<PathBuf, Fail> {
    let alloc = rt.alloc();
    let name = format!(in alloc; "{name}_{}", process::id(rt.process()))?;
    Ok(env::temp_dir(rt)?.join(alloc, name.as_str())?)
}

/// Whether the real file at a path has these bytes.
fn reads(rt: &HostRuntime, path: &PathBuf, bytes: &[u8]) -> bool {
    gives(&mut FileInputs::new(rt), rt.alloc(), path.as_str(), bytes)
}

/// Whether it cannot be read.
fn is_unread(rt: &HostRuntime, path: &PathBuf) -> bool {
    fails(&mut FileInputs::new(rt), rt.alloc(), path.as_str())
}

#[test]
fn real_files_are_read(rt: HostRuntime) -> Result<(), Fail> {
    let path = path_of_own(&rt, "sim_outer")?;
    assert!(rt; is_unread(&rt, &path), "there is no such file");
    fs::write(&rt, &path, b"short".as_slice())?;
    assert!(rt; reads(&rt, &path, b"short"));
    fs::remove_file(&rt, &path)?;
    Ok(())
}

/// Whether exactly the first bytes of a long file are fetched.
fn is_read_cut(rt: &HostRuntime, path: &PathBuf) -> bool {
    match FileInputs::new(rt).fetch(rt.alloc(), path.as_str()) {
        Ok(bytes) => bytes.len() == MAX_FETCHED && begin_long_file(bytes.as_slice()),
        Err(_) => false,
    }
}

#[test]
fn a_long_file_is_cut(rt: HostRuntime) -> Result<(), Fail> {
    let path = path_of_own(&rt, "sim_outer_long")?;
    fs::write(
        &rt,
        &path,
        long_file(rt.alloc(), MAX_FETCHED + 1)?.as_slice(),
    )?;
    assert!(rt; is_read_cut(&rt, &path));
    fs::remove_file(&rt, &path)?;
    Ok(())
}

#[test]
fn a_folder_is_not_read(rt: HostRuntime) -> Result<(), Fail> {
    let folder = env::temp_dir(&rt)?;
    assert!(rt; is_unread(&rt, &folder));
    Ok(())
}

#[test]
fn real_output_takes_bytes(rt: HostRuntime) {
    let mut sink = OutSink::new(&rt);
    assert!(rt; sink.put(b"a line of output\n").is_ok() && sink.put(b"").is_ok());
}

#[test]
fn standard_error_takes_text(rt: HostRuntime) {
    let mut sink = ErrSink::new(&rt);
    assert!(rt; sink.put(b"a line of errors\n").is_ok() && sink.put(b"").is_ok());
    assert!(rt; sink.put(b"\xff") == Err(PutFailed));
}
