//! Watches a drawing: a scene is drawn into one frame on all threads but one, and that one looks at 64 pixels meanwhile, over and
//! over, by a pass of its own.
//!
//! The words are those of `abuf render`, without `--bands` and `--peel`; the scene is standard input. To standard error it writes
//! how many numbers of nodes had been claimed before the first look and at the last, and how the looks ended, which differs from
//! run to run. To standard output it writes what was seen last of each pixel, when all had drawn: the numbers and the masks of its
//! fragments. Then come the number of all fragments, the length of the longest list of a pixel, and the sum of all pixels' sums
//! over their samples. All of that is the same for every number of threads and however they run.
#![tactic(auto)]

use abuf_io::{FolderShelf, ReadSource};
use abuf_watching::{Stop, WatchOutput, run};
use std::io::ErrorKind;
use std::process::ExitCode;
use std::rt::Env;
use std::{env, io};

/// The words after the program's name.
fn words(rt: &(impl Env + AllocGlobal)) -> Result<Vec<String>, Stop> {
    match env::args(rt) {
        Ok(args) => args.skip(1).collect(rt.alloc()).map_err(|_| Stop::Memory),
        Err(error) if error.kind() == ErrorKind::OutOfMemory => Err(Stop::Memory),
        Err(_) => Err(Stop::Words),
    }
}

/// Writes what was seen: how the looks ended to standard error, and the report to standard output.
fn tell(rt: &(impl Print + Eprint), shown: &WatchOutput) -> io::Result<()> {
    let looks = shown.looks;
    eprintln!(rt; "entries {} to {}", looks.first, looks.last)?;
    eprintln!(rt;
        "looks: whole {} unlinked {} more {}",
        looks.whole, looks.unlinked, looks.more
    )?;
    print!(rt; "{}", shown.report)
}

/// Says why nothing was watched.
fn refuse(rt: &impl Eprint, stop: Stop) -> io::Result<()> {
    match stop {
        Stop::Words => {
            eprintln!(rt; "the words of `abuf render`, without bands or layers, are wanted")
        }
        Stop::SceneTooLong => eprintln!(rt; "scene too long"),
        Stop::SceneLine { line } => eprintln!(rt; "scene line {line}"),
        Stop::Library { number } => eprintln!(rt; "library {number}"),
        Stop::Full { fragments, nodes } => {
            eprintln!(rt; "pool full: {fragments} fragments, {nodes} nodes")
        }
        Stop::Read => eprintln!(rt; "read fault"),
        Stop::Memory => eprintln!(rt; "no memory"),
    }
}

fn main(rt: HostRuntime) -> ExitCode {
    let mut source = ReadSource::new(rt.stdin());
    let mut shelf = FolderShelf::new(&rt);
    let ran = match words(&rt) {
        Ok(words) => run(&rt, rt.alloc(), words.as_slice(), &mut source, &mut shelf),
        Err(stop) => Err(stop),
    };
    match ran {
        Ok(shown) => match tell(&rt, &shown) {
            Ok(()) => ExitCode::SUCCESS,
            Err(_) => ExitCode::from(7),
        },
        Err(stop) => {
            let _ = refuse(&rt, stop);
            ExitCode::from(stop.status())
        }
    }
}
