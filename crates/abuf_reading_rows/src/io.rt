// Sources, sinks and shelves: each call once over memory, and how whole readings and writings end.
ghost use Rattle.std.specs.Prelude.{IfOk};
ghost use Rattle.abuf_io.specs.Plans.{IsPlan};

use abuf_io::{
    Failed, Fetch, FolderShelf, MemShelf, MemSink, MemSource, ReadEnd, ReadSource, Shelf, Sink,
    Source, SteadyShelf, SteadySource, Step, WriteFault, WriteSink, read_all, write_all,
};
use abuf_num::List;
use std::alloc::Global;
use std::io::{BufWriter, ErrorKind, Read, Write};
use std::test::Fail;
use std::{fs, io};

fn bytes(alloc: Global, text: &[u8]) -> Result<List<u8>, Fail> {
    Ok(List::from_vec(text.to_vec(alloc)?))
}

/// Whether these bytes came.
fn gave<E: Drop>(got: Result<List<u8>, E>, bytes: &[u8]) -> bool {
    match got {
        Ok(whole) => whole.as_slice() == bytes,
        Err(_) => false,
    }
}

/// A step that takes two bytes, a fault, and a step that takes one.
fn plan(alloc: Global) -> Result<List<Step>, Fail>
    ensures { IfOk result IsPlan }
{
    let mut plan = List::new(alloc);
    plan.push(Step::Take(2))?;
    plan.push(Step::Fail)?;
    plan.push(Step::Take(1))?;
    Ok(plan)
}

#[test]
fn a_source_goes_by_its_plan(rt: HostRuntime) -> Result<(), Fail> {
    let alloc = rt.alloc();
    let mut source = MemSource::new(bytes(alloc, b"abcdefg")?, plan(alloc)?);
    let mut buf = [0u8; 3];
    assert!(rt; source.read(&mut buf) == Ok(2));
    assert!(rt; buf.as_slice() == b"ab\0".as_slice());
    assert!(rt; source.read(&mut buf) == Err(Failed));
    assert!(rt; source.read(&mut buf) == Ok(1));
    assert!(rt; source.read(&mut buf) == Ok(3));
    assert!(rt; buf.as_slice() == b"def".as_slice());
    assert!(rt; source.read(&mut buf) == Ok(1));
    assert!(rt; source.read(&mut buf) == Ok(0));
    Ok(())
}

#[test]
fn a_sink_goes_by_its_plan_and_its_room(rt: HostRuntime) -> Result<(), Fail> {
    let alloc = rt.alloc();
    let mut sink = MemSink::new(alloc, 5, plan(alloc)?)?;
    assert!(rt; sink.write(b"abc") == Ok(2));
    assert!(rt; sink.write(b"c") == Err(Failed));
    assert!(rt; sink.write(b"cd") == Ok(1));
    assert!(rt; sink.write(b"defg") == Ok(2));
    assert!(rt; sink.write(b"") == Ok(0));
    assert!(rt; sink.write(b"fg") == Err(Failed));
    assert!(rt; sink.taken() == b"abcde".as_slice());
    Ok(())
}

#[test]
fn a_reading_is_whole_or_says_why(rt: HostRuntime) -> Result<(), Fail> {
    let alloc = rt.alloc();
    let mut steady = SteadySource::new(bytes(alloc, b"abc")?);
    assert!(rt; gave(read_all(alloc, &mut steady, 3), b"abc"));
    let mut long = SteadySource::new(bytes(alloc, b"abc")?);
    assert!(rt; read_all(alloc, &mut long, 2).err() == Some(ReadEnd::TooLong));
    let mut failing = MemSource::new(bytes(alloc, b"abc")?, plan(alloc)?);
    assert!(rt; read_all(alloc, &mut failing, 3).err() == Some(ReadEnd::ReadFault));
    Ok(())
}

#[test]
fn no_read_follows_the_end(rt: HostRuntime) -> Result<(), Fail> {
    let alloc = rt.alloc();
    let mut source = MemSource::new(bytes(alloc, b"ab")?, ends(alloc)?);
    assert!(rt; gave(read_all(alloc, &mut source, 9), b"ab"));
    Ok(())
}

/// Two steps that take one byte, one at the end, and a fault.
fn ends(alloc: Global) -> Result<List<Step>, Fail>
    ensures { IfOk result IsPlan }
{
    let mut plan = List::new(alloc);
    plan.push(Step::Take(1))?;
    plan.push(Step::Take(1))?;
    plan.push(Step::Take(1))?;
    plan.push(Step::Fail)?;
    Ok(plan)
}

#[test]
fn a_writing_offers_all_that_is_left(rt: HostRuntime) -> Result<(), Fail> {
    let alloc = rt.alloc();
    let mut sink = MemSink::new(alloc, 9, plan(alloc)?)?;
    assert!(rt; write_all(&mut sink, b"ab") == Ok(()));
    assert!(rt; write_all(&mut sink, b"c") == Err(WriteFault));
    assert!(rt; write_all(&mut sink, b"cde") == Ok(()));
    assert!(rt; sink.taken() == b"abcde".as_slice());
    Ok(())
}

#[test]
fn shelves_hold_the_first_pair_of_a_name(rt: HostRuntime) -> Result<(), Fail> {
    let alloc = rt.alloc();
    let mut steady = SteadyShelf::new(pairs(alloc)?);
    let mut fails = List::new(alloc);
    fails.push(1)?;
    let mut shelf = MemShelf::new(pairs(alloc)?, fails);
    assert!(rt; gave(steady.fetch(alloc, b"a", 3), b"one"));
    assert!(rt; gave(shelf.fetch(alloc, b"a", 3), b"one"));
    assert!(rt; shelf.fetch(alloc, b"a", 3).err() == Some(Fetch::Failed));
    assert!(rt; shelf.fetch(alloc, b"a", 2).err() == Some(Fetch::TooLong));
    assert!(rt; shelf.fetch(alloc, b"b", 2).err() == Some(Fetch::Missing));
    assert!(rt; steady.fetch(alloc, b"a", 2).err() == Some(Fetch::TooLong));
    assert!(rt; steady.fetch(alloc, b"b", 2).err() == Some(Fetch::Missing));
    Ok(())
}

/// Two contents under one name.
fn pairs(alloc: Global) -> Result<List<(List<u8>, List<u8>)>, Fail> {
    let mut pairs = List::new(alloc);
    pairs.push((bytes(alloc, b"a")?, bytes(alloc, b"one")?))?;
    pairs.push((bytes(alloc, b"a")?, bytes(alloc, b"two")?))?;
    Ok(pairs)
}

#[test]
fn the_folder_tells_a_missing_file_from_a_fault(rt: HostRuntime) {
    let alloc = rt.alloc();
    let mut folder = FolderShelf::new(&rt);
    let rows: [(&[u8], Fetch); 4] = [
        (b"no such file.mtl", Fetch::Missing),
        (b".", Fetch::Failed),
        (b"a\0b", Fetch::Failed),
        (b"\xff", Fetch::Failed),
    ];
    for (name, fetch) in rows {
        assert!(rt; folder.fetch(alloc, name, 9).err() == Some(fetch));
    }
}

#[test]
fn the_folder_gives_what_a_file_holds(rt: HostRuntime) -> Result<(), Fail> {
    let alloc = rt.alloc();
    let mut content = Vec::new(alloc);
    for number in 0..40000u32 {
        content.push((number % 251) as u8)?;
    }
    fs::write(&rt, "abuf_io_test.mtl", content.as_slice())?;
    let mut folder = FolderShelf::new(&rt);
    let name = b"abuf_io_test.mtl".as_slice();
    assert!(rt; gave(folder.fetch(alloc, name, 40000), content.as_slice()));
    assert!(rt; folder.fetch(alloc, name, 39999).err() == Some(Fetch::TooLong));
    fs::remove_file(&rt, "abuf_io_test.mtl")?;
    assert!(rt; folder.fetch(alloc, name, 40000).err() == Some(Fetch::Missing));
    Ok(())
}

#[test]
fn a_reader_s_bytes_come_as_they_stand(rt: HostRuntime) -> Result<(), Fail> {
    let alloc = rt.alloc();
    let mut source = ReadSource::new(b"abcde".as_slice());
    let mut buf = [0u8; 3];
    assert!(rt; source.read(&mut buf) == Ok(3));
    assert!(rt; buf.as_slice() == b"abc".as_slice());
    assert!(rt; source.read(&mut buf) == Ok(2));
    assert!(rt; buf.as_slice() == b"dec".as_slice());
    assert!(rt; source.read(&mut buf) == Ok(0));
    let mut whole = ReadSource::new(b"abc".as_slice());
    assert!(rt; gave(read_all(alloc, &mut whole, 3), b"abc"));
    let mut torn = ReadSource::new(Torn { rest: b"abc" });
    assert!(rt; read_all(alloc, &mut torn, 3).err() == Some(ReadEnd::ReadFault));
    Ok(())
}

/// A reader that fails behind its bytes.
#[derive(Drop)]
struct Torn<'a> {
    rest: &'a [u8],
}

impl Read for Torn<'_> {
    fn read(&mut self, buf: &mut [u8]) -> io::Result<usize> {
        if self.rest.is_empty() {
            return Err(ErrorKind::Other.into());
        }
        self.rest.read(buf)
    }
}

#[test]
fn a_writer_has_the_bytes(rt: HostRuntime) {
    let mut room = [0u8; 5];
    let mut sink = WriteSink::new(room.as_mut_slice());
    assert!(rt; write_all(&mut sink, b"abc") == Ok(()));
    assert!(rt; sink.write(b"def") == Ok(2));
    assert!(rt; sink.write(b"") == Ok(0));
    assert!(rt; sink.write(b"f") == Err(Failed));
    assert!(rt; room.as_slice() == b"abcde".as_slice());
}

#[test]
fn each_write_is_flushed(rt: HostRuntime) -> Result<(), Fail> {
    let mut arrived = 0;
    let mut sink = WriteSink::new(Held {
        waiting: 0,
        arrived: &mut arrived,
    });
    assert!(rt; sink.write(b"abc") == Ok(3));
    drop(sink);
    assert!(rt; arrived == 3);
    let mut room = [0u8; 2];
    let mut full = WriteSink::new(BufWriter::new(rt.alloc(), room.as_mut_slice())?);
    assert!(rt; full.write(b"abc") == Err(Failed));
    drop(full);
    assert!(rt; room.as_slice() == b"ab".as_slice());
    Ok(())
}

/// A writer whose bytes arrive where it is flushed. It keeps their numbers alone.
#[derive(Drop)]
struct Held<'a> {
    waiting: usize,
    arrived: &'a mut usize,
}

impl Write for Held<'_> {
    fn write(&mut self, buf: &[u8]) -> io::Result<usize> {
        self.waiting = self.waiting.saturating_add(buf.len());
        Ok(buf.len())
    }

    fn flush(&mut self) -> io::Result<()> {
        *self.arrived = self.arrived.saturating_add(self.waiting);
        self.waiting = 0;
        Ok(())
    }
}
