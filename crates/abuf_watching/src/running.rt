// A whole run, from the words to what there is to be written.
ghost use Rattle.std.specs.Prelude.{◌≡◌, true, IfOk, map};
ghost use Rattle.std.specs.String.{string_bytes};
ghost use Rattle.abuf_cli.specs.Jobs.{job};
ghost use Rattle.abuf_watching.specs.Show.{IsOneImage, IsRunOf};

use crate::load::load;
use crate::show::{WatchOutput, show};
use crate::stop::Stop;
use abuf_cli::{Command, Job, Storage, What, read_words};
use abuf_io::{Shelf, Source};
use std::alloc::Global;
use std::thread::Threads;

/// Whether the job is to draw an image into one frame.
fn is_one_image(job: &Job) -> bool
    ensures { result ≡ true → IsOneImage job.now }
{
    match job.command() {
        Command::Draw(What::Render) => match job.storage() {
            Storage::OneFrame => true,
            _ => false,
        },
        _ => false,
    }
}

/// Reads the words after the program's name, the scene from the source and its libraries from the shelf, draws the scene and watches.
/// The words are those of `abuf render`, without `--bands` and `--peel`. `Memory` may come at any time.
pub fn run<R: Threads + Sync, S: Source, H: Shelf>(
    rt: &R,
    alloc: Global,
    words: &[String],
    source: &mut S,
    shelf: &mut H,
) -> Result<WatchOutput, Stop>
    ensures { IfOk result (λ s. IsRunOf (job (map string_bytes words.now)) (string_bytes s.report) s.looks) }
{
    let job = read_words(alloc, words)?;
    if !is_one_image(&job) {
        return Err(Stop::Words);
    }
    let projected = load(rt, alloc, &job, source, shelf)?;
    show(rt, alloc, &job, &projected)
}
