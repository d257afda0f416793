// The process, from its arguments to its exit code, over arguments that a test makes.
use crate::command::image;
use abuf_io::{MemSink, SteadyShelf, SteadySource};
use abuf_num::List;
use abuf_top::start;
use std::alloc::Global;
use std::env::{Env, FillError};
use std::io::ErrorKind;
use std::process::ExitCode;
use std::test::Fail;
use std::thread::Threads;
use std::{env, io};

/// The arguments of a process, of which the first is its name.
#[derive(Drop)]
struct Given<'a> {
    args: &'a [&'a [u8]],
}

impl Env for Given<'_> {
    fn arg(&self, i: usize, buf: &mut [u8]) -> Result<usize, FillError> {
        let Some(arg) = self.args.get(i) else {
            return Err(FillError::NotPresent);
        };
        let Some(front) = buf.get_mut(..arg.len()) else {
            return Err(FillError::TooLong);
        };
        front.copy_from_slice(arg);
        Ok(arg.len())
    }

    fn var(&self, _name: &str, _buf: &mut [u8]) -> Result<usize, FillError> {
        Err(FillError::NotPresent)
    }

    fn var_at(&self, _i: usize, _buf: &mut [u8]) -> Result<usize, FillError> {
        Err(FillError::NotPresent)
    }
}

fn arguments(alloc: Global, args: &[&[u8]]) -> io::Result<env::Args> {
    env::args(&(Given { args }, alloc))
}

/// Whether a process that is given these arguments, and no scene and no files, ends so.
fn ends<R: Threads + Sync + AllocGlobal>(
    rt: &R,
    args: io::Result<env::Args>,
    code: u8,
    out: &[u8],
    err: &[u8],
) -> Result<bool, Fail> {
    let alloc = rt.alloc();
    let mut scene = SteadySource::new(List::new(alloc));
    let mut shelf = SteadyShelf::new(List::new(alloc));
    let mut written = MemSink::new(alloc, 1 << 10, List::new(alloc))?;
    let mut said = MemSink::new(alloc, 1 << 10, List::new(alloc))?;
    let ended = start(rt, args, &mut scene, &mut shelf, &mut written, &mut said);
    Ok(ended == ExitCode::from(code) && written.taken() == out && said.taken() == err)
}

/// The words are the arguments after the first.
#[test]
fn words_come_after_the_name(rt: HostRuntime) -> Result<(), Fail> {
    let alloc = rt.alloc();
    let black = image(alloc, "..")?;
    let named: [&[u8]; 4] = [b"abuf", b"render", b"--size", b"2x1"];
    assert!(rt; ends(&rt, arguments(alloc, &named), 0, black.as_slice(), b"")?);
    let nameless: [&[u8]; 3] = [b"render", b"--size", b"2x1"];
    assert!(rt;
        ends(
            &rt,
            arguments(alloc, &nameless),
            2,
            b"",
            b"words not understood\n"
        )?
    );
    assert!(rt;
        ends(
            &rt,
            arguments(alloc, &named[..1]),
            2,
            b"",
            b"words not understood\n"
        )?
    );
    assert!(rt;
        ends(
            &rt,
            arguments(alloc, &[]),
            2,
            b"",
            b"words not understood\n"
        )?
    );
    Ok(())
}

/// No word is understood where one isn't UTF-8.
#[test]
fn words_that_are_no_text(rt: HostRuntime) -> Result<(), Fail> {
    let alloc = rt.alloc();
    let text: [&[u8]; 5] = [b"abuf", b"sequence", b"p\xc3\xbf", b"--size", b"2x1"];
    assert!(rt; ends(&rt, arguments(alloc, &text), 9, b"", b"path missing\n")?);
    let bytes: [&[u8]; 5] = [b"abuf", b"sequence", b"p\xff", b"--size", b"2x1"];
    assert!(rt;
        ends(
            &rt,
            arguments(alloc, &bytes),
            2,
            b"",
            b"words not understood\n"
        )?
    );
    Ok(())
}

/// Memory that ran out for the words is told.
#[test]
fn words_without_memory(rt: HostRuntime) -> Result<(), Fail> {
    let none = io::Error::from(ErrorKind::OutOfMemory);
    assert!(rt; ends(&rt, Err(none), 8, b"", b"no memory\n")?);
    Ok(())
}
