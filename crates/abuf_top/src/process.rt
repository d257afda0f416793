// What the process does: from its arguments to its exit code.
ghost use Rattle.std.specs.Prelude.{◌≡◌, List, ℕ, map, drop, IfOk};
ghost use Rattle.std.specs.String.{string_bytes};
ghost use Rattle.std.specs.Vec.Iter.{into_iter_items};
ghost use Rattle.abuf_io.specs.Sinks.{sink_change};
ghost use Rattle.abuf_top.specs.Outside.{source_change, shelf_change};
ghost use Rattle.abuf_top.specs.Process.{AreWords, IsStart};

use crate::outcome::Outcome;
use crate::stop::Stop;
use crate::top::{conclude, run};
use abuf_io::{Shelf, Sink, Source};
use std::alloc::{AllocError, Global};
use std::env::Args;
use std::io;
use std::io::ErrorKind;
use std::process::ExitCode;
use std::thread::Threads;

/// The words after the program's name, which is the first.
fn after_name(alloc: Global, args: Args) -> Result<Vec<String>, AllocError>
    ensures { IfOk result (λ words. words.items ≡ drop 1 (into_iter_items args)) }
{
    let mut rest = args;
    let _name = rest.next();
    let words = rest.collect(alloc)?;
    Ok(words)
}

/// The words of a run.
fn words_of(alloc: Global, args: io::Result<Args>) -> Result<Vec<String>, AllocError>
    ensures { IfOk result (λ words. (texts : List (List ℕ)) → AreWords args texts → texts ≡ map string_bytes words.items) }
{
    match args {
        Ok(args) => after_name(alloc, args),
        Err(error) if error.kind() == ErrorKind::OutOfMemory => Err(AllocError),
        Err(_) => Ok(Vec::new(alloc)),
    }
}

/// All that `main` does with what it is given: `args` is what [`env::args`](std::env::args) gives, the program's name and the
/// words after it, and the answer is the code that the process exits with.
///
/// A word that isn't UTF-8 makes the command line one that isn't understood. Where memory runs out for the words, the run ends
/// by that before it reads.
pub fn start<R: Threads + Sync + AllocGlobal, S: Source, H: Shelf, O: Sink, E: Sink>(
    rt: &R,
    args: io::Result<Args>,
    scene: &mut S,
    shelf: &mut H,
    out: &mut O,
    err: &mut E,
) -> ExitCode
    ensures { IsStart args result (record {
      source = source_change S.left S.faults scene.old scene.new;
      shelf = shelf_change H.tells H.holds H.calls H.faults shelf.old shelf.new;
      out = sink_change O.taken O.faults out.old out.new;
      err = sink_change E.taken E.faults err.old err.new;
    }) }
{
    let alloc = rt.alloc();
    match words_of(alloc, args) {
        Ok(words) => ExitCode::from(
            run(rt, alloc, words.as_slice(), scene, shelf, out, err).status,
        ),
        Err(_) => ExitCode::from(
            conclude(alloc, Outcome::without_frame(Err(Stop::Memory)), err).status,
        ),
    }
}
