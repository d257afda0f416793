// A command line, carried out over memory.
ghost use Rattle.std.specs.Prelude.{IfOk, map};
ghost use Rattle.std.specs.String.{string_bytes};
ghost use Rattle.abuf_uses.specs.Running.{IsAnswerTo};

use abuf_io::{MemSink, SteadyShelf, SteadySource};
use abuf_num::{List, NoMemory};
use abuf_top::run;
use std::alloc::Global;
use std::thread::Threads;

/// What a command line gave.
#[derive(Drop)]
pub struct Answer {
    /// The status that the program would end with.
    pub status: u8,
    /// What it wrote to its output, and to its messages.
    pub output: MemSink,
    pub messages: MemSink,
}

/// Carries out the command line of these words, those after the program's name. The scene is what stands on the standard input,
/// and the files are libraries and paths under their names. The output has room for a megabyte.
pub fn carry_out<R: Threads + Sync>(
    rt: &R,
    alloc: Global,
    words: &[String],
    scene: List<u8>,
    files: List<(List<u8>, List<u8>)>,
) -> Result<Answer, NoMemory>
    ensures { IfOk result (IsAnswerTo (map string_bytes words.now) scene files) }
{
    let mut source = SteadySource::new(scene);
    let mut shelf = SteadyShelf::new(files);
    let mut output = MemSink::new(alloc, 1 << 20, List::new(alloc))?;
    let mut messages = MemSink::new(alloc, 1 << 10, List::new(alloc))?;
    let ran = run(
        rt,
        alloc,
        words,
        &mut source,
        &mut shelf,
        &mut output,
        &mut messages,
    );
    Ok(Answer {
        status: ran.status,
        output,
        messages,
    })
}
