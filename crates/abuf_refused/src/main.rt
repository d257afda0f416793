//! The program on a scene that is refused, for its exit status: what it is run on, and that status, stand beside this.
#![tactic(auto)]

use abuf_io::{FolderShelf, ReadSource, WriteSink};
use abuf_top::start;
use std::env;
use std::process::ExitCode;

fn main(rt: HostRuntime) -> ExitCode {
    start(
        &rt,
        env::args(&rt),
        &mut ReadSource::new(rt.stdin()),
        &mut FolderShelf::new(&rt),
        &mut WriteSink::new(rt.stdout()),
        &mut WriteSink::new(rt.stderr()),
    )
}
