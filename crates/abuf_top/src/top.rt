// The top call.
ghost use Rattle.std.specs.Prelude.{◌≡◌, ◌++◌, ◌∷◌, [], ℕ, List, take, map};
ghost use Rattle.std.specs.String.{string_bytes};
ghost use Rattle.std.specs.Io.KnownBytes.{Appends};
ghost use Rattle.abuf_io.specs.Causes.{Rose};
ghost use Rattle.abuf_top.specs.Ending.{Reports, Tells, Concludes, handed_back};
ghost use Rattle.abuf_top.specs.Promise.{IsRun};
ghost use Rattle.abuf_io.specs.Sinks.{sink_change};
ghost use Rattle.abuf_top.specs.Outside.{source_change, shelf_change};

use crate::commands::sequence::write_images;
use crate::outcome::Outcome;
use crate::output::write_output;
use crate::prepare::prepare;
use crate::status::Status;
use crate::stop::Stop;
use crate::task::Task;
use abuf_fan::{Gate, OpenGate};
use abuf_frame::Closed;
use abuf_io::{Shelf, Sink, Source, write_all};
use std::alloc::Global;
use std::thread::Threads;

/// What a run returns.
#[derive(Drop)]
pub struct Ran {
    /// The number of the run's [`Status`](crate::Status): that of the process, from 0 to 9; 1 never comes.
    pub status: u8,
    /// The frame into which the scene was drawn, after its closing: with the statuses 0, 5 and 7 alone, and not where the image
    /// is peeled or drawn band by band, nor for a sequence.
    pub closed: Option<Closed>,
}

/// A text with its line feed goes out by one call.
fn say<E: Sink>(err: &mut E, line: &[u8])
    ensures part { (count : ℕ) × Appends (E.taken err.old) (E.taken err.new) (take count line.now) }
    ensures whole { (Rose (E.faults err.old) (E.faults err.new) → ⊥) → Appends (E.taken err.old) (E.taken err.new) line.now }
{
    let _ = write_all(err, line);
}

/// Says how the run stopped, and returns its status.
fn report<E: Sink>(alloc: Global, err: &mut E, stop: Stop) -> Status
    ensures { Reports stop result (sink_change E.taken E.faults err.old err.new) }
{
    match stop {
        Stop::Refused(refusal) => match refusal.line(alloc) {
            Ok(line) => {
                say(err, line.as_bytes());
                refusal.status()
            }
            Err(_) => {
                say(err, b"no memory\n");
                Status::Memory
            }
        },
        Stop::PoolFull(pool) => match pool.line(alloc) {
            Ok(line) => {
                say(err, line.as_bytes());
                Status::PoolFull
            }
            Err(_) => {
                say(err, b"no memory\n");
                Status::Memory
            }
        },
        Stop::ReadFault => {
            say(err, b"read fault\n");
            Status::ReadFault
        }
        Stop::WriteFault => {
            say(err, b"write fault\n");
            Status::WriteFault
        }
        Stop::Memory => {
            say(err, b"no memory\n");
            Status::Memory
        }
    }
}

/// Says why the run stopped, where it did, and returns its status.
fn tell<E: Sink>(alloc: Global, err: &mut E, ended: Result<(), Stop>) -> Status
    ensures { Tells ended result (sink_change E.taken E.faults err.old err.new) }
{
    match ended {
        Ok(()) => Status::Written,
        Err(stop) => report(alloc, err, stop),
    }
}

/// The frame goes with the statuses of a run that drew its scene.
fn handed_back(status: Status, closed: Option<Closed>) -> Option<Closed>
    ensures { result ≡ handed_back status closed }
{
    match status {
        Status::Written | Status::PoolFull | Status::WriteFault => closed,
        _ => None,
    }
}

/// The end of a run: what it says, and the frame.
pub(crate) fn conclude<E: Sink>(alloc: Global, outcome: Outcome<()>, err: &mut E) -> Ran
    ensures { Concludes outcome.result outcome.closed result (sink_change E.taken E.faults err.old err.new) }
{
    let status = tell(alloc, err, outcome.result);
    Ran {
        status: status.number(),
        closed: handed_back(status, outcome.closed),
    }
}

/// `run`, over a gate: every worker that draws calls it twice.
pub fn run_with<R: Threads + Sync, S: Source, H: Shelf, O: Sink, E: Sink, G: Gate + Sync>(
    rt: &R,
    alloc: Global,
    words: &[String],
    scene: &mut S,
    shelf: &mut H,
    out: &mut O,
    err: &mut E,
    gate: &G,
) -> Ran
    ensures { IsRun (map string_bytes words.now) result (record {
      source = source_change S.left S.faults scene.old scene.new;
      shelf = shelf_change H.tells H.holds H.calls H.faults shelf.old shelf.new;
      out = sink_change O.taken O.faults out.old out.new;
      err = sink_change E.taken E.faults err.old err.new;
    }) }
{
    match prepare(rt, alloc, words, scene, shelf) {
        Ok(Task::Draw(drawing)) => {
            let outcome = write_output(rt, alloc, &drawing, out, gate);
            conclude(alloc, outcome, err)
        }
        Ok(Task::Sequence(images)) => {
            let result = write_images(rt, alloc, &images, out);
            conclude(alloc, Outcome::without_frame(result), err)
        }
        Err(stop) => conclude(alloc, Outcome::without_frame(Err(stop)), err),
    }
}

/// Reads the words after the program's name and the scene, fetches its libraries, draws, and writes the output to `out` by
/// one call, or a text to `err` that says why not. `demo` draws a scene of its own, and calls neither `scene` nor `shelf`.
/// `sequence` fetches a path before it reads the scene, and writes an image for each of its shots, each by one call.
///
/// The status is 0 if all of the output was written. It is 2 if the words are refused, 3 if the scene is, 4 if a library is, and 9
/// if the path is. It is 5 if a pool is full: that of the whole image, of a band or of an image of a sequence. It is 6 after a read
/// fault, 7 after a write fault, and 8 if memory ran out.
pub fn run<R: Threads + Sync, S: Source, H: Shelf, O: Sink, E: Sink>(
    rt: &R,
    alloc: Global,
    words: &[String],
    scene: &mut S,
    shelf: &mut H,
    out: &mut O,
    err: &mut E,
) -> Ran
    ensures { IsRun (map string_bytes words.now) result (record {
      source = source_change S.left S.faults scene.old scene.new;
      shelf = shelf_change H.tells H.holds H.calls H.faults shelf.old shelf.new;
      out = sink_change O.taken O.faults out.old out.new;
      err = sink_change E.taken E.faults err.old err.new;
    }) }
{
    run_with(rt, alloc, words, scene, shelf, out, err, &OpenGate)
}
