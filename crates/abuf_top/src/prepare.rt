// What is to be drawn: all that comes before the drawing.
ghost use Rattle.std.specs.Prelude.{map, Ok};
ghost use Rattle.std.specs.String.{string_bytes};
ghost use Rattle.abuf_cli.specs.Jobs.{job};
ghost use Rattle.abuf_top.specs.Fetches.{command_demand, demand};
ghost use Rattle.abuf_top.specs.Outside.{source_change, shelf_change};
ghost use Rattle.abuf_top.specs.Reads.{PreparesBy};
ghost use Rattle.abuf_top.specs.Verdict.{command_verdict, task};

use crate::commands::sequence::prepare_images;
use crate::load::load;
use crate::stop::Stop;
use crate::task::Task;
use abuf_cli::{Command, Job, read_words};
use abuf_io::{Shelf, Source};
use std::alloc::Global;
use std::thread::Threads;

/// One drawing of the job's scene, or the images of its path.
fn task_of<R: Threads + Sync, S: Source, H: Shelf>(
    rt: &R,
    alloc: Global,
    job: Job,
    scene: &mut S,
    shelf: &mut H,
) -> Result<Task, Stop>
    ensures { PreparesBy (command_verdict job.command job) (command_demand job.command) (Ok job) (source_change S.left S.faults scene.old scene.new)
        (shelf_change H.tells H.holds H.calls H.faults shelf.old shelf.new) result }
{
    match job.command() {
        Command::Draw(what) => {
            let what = *what;
            let loaded = load(rt, alloc, what, scene, shelf, job.threads())?;
            loaded.drawing(rt, alloc, job, what)
        }
        Command::Sequence { name } => {
            prepare_images(rt, alloc, &job, name.as_slice(), scene, shelf)
        },
    }
}

/// Reads the words, the path of a sequence, the scene and its libraries: all that comes before the drawing, up to the first
/// refusal. Where the words give no job, for `demo`, and where a path is refused, the source isn't called.
#[tactic(auto, unfolding(crate::specs::Verdict::task), using(crate::proofs::Taking::takes_none))]
pub(crate) fn prepare<R: Threads + Sync, S: Source, H: Shelf>(
    rt: &R,
    alloc: Global,
    words: &[String],
    scene: &mut S,
    shelf: &mut H,
) -> Result<Task, Stop>
    ensures { PreparesBy (task (map string_bytes words.now)) (demand (job (map string_bytes words.now))) (job (map string_bytes words.now))
        (source_change S.left S.faults scene.old scene.new)
        (shelf_change H.tells H.holds H.calls H.faults shelf.old shelf.new) result }
{
    let job = read_words(alloc, words)?;
    task_of(rt, alloc, job, scene, shelf)
}
