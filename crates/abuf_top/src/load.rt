// The work before the projection: the words, the scene, its libraries and their materials.
ghost use Rattle.std.specs.Prelude.{◌≡◌, ◌⊎◌, ◌≤◌, ◌+◌, [], List as Items, ℕ, length, true, IfOk, IfErr, IfSome, None, OnOk, option_and_then};
ghost use Rattle.abuf_num.specs.declared.limits.TheConstants.{MAX_BYTES, MAX_THREADS};
ghost use Rattle.abuf_io.specs.Causes.{Rose};
ghost use Rattle.abuf_cli.specs.declared.job.What.TheVariants.{Demo};
ghost use Rattle.abuf_obj.specs.Sound.{IsScene};
ghost use Rattle.abuf_obj.specs.Scene.{points, faces, names, libraries, obj_fault};
ghost use Rattle.abuf_obj.specs.Faults.{TellsFirst};
ghost use Rattle.abuf_top.specs.Fetches.{fault_fetches, scene_demand, load_demand};
ghost use Rattle.abuf_top.specs.Libraries.{asked};
ghost use Rattle.abuf_top.specs.Outside.{source_change, shelf_change};
ghost use Rattle.abuf_top.specs.Reads.{AnswersAsHeld, CallsHeld, LoadsBy};
ghost use Rattle.abuf_top.specs.Prepared.{Loads};
ghost use Rattle.abuf_top.specs.Stopped.{HasReadCause};
ghost use Rattle.abuf_top.specs.Verdict.{material_verdict, library_verdict, fault_verdict, scene_verdict, scene_of, scene_read, loaded};

use crate::demonstration::demonstrate;
use crate::libraries::read_libraries;
use crate::loaded::Loaded;
use crate::stop::{Refusal, Stop};
use abuf_cli::{What, WordFault};
use abuf_io::{ReadEnd, Shelf, Source, read_all};
use abuf_num::List;
use abuf_num::limits::MAX_BYTES;
use abuf_obj::{FlatObj, ObjFault, read_obj_on_threads};
use abuf_scene::SceneFault;
use abuf_view::Room;
use std::alloc::Global;
use std::thread::Threads;

impl From<ReadEnd> for Stop {
    ghost use Rattle.abuf_top.specs.Ends.{read_stop};

    ghost from_gives = { λ end stop. stop ≡ read_stop end };

    fn from(end: ReadEnd) -> Self {
        match end {
            ReadEnd::ReadFault => Stop::ReadFault,
            ReadEnd::TooLong => Stop::Refused(Refusal::SceneTooLong),
            ReadEnd::Memory => Stop::Memory,
        }
    }
}

impl From<ObjFault> for Stop {
    ghost use Rattle.abuf_top.specs.Ends.{obj_stop};

    ghost from_gives = { λ fault stop. stop ≡ obj_stop fault };

    fn from(fault: ObjFault) -> Self {
        match fault {
            ObjFault::Line { line, why } => Stop::Refused(Refusal::SceneLine(line, why)),
            ObjFault::Memory => Stop::Memory,
        }
    }
}

impl From<SceneFault> for Stop {
    ghost use Rattle.abuf_top.specs.Ends.{scene_stop};

    ghost from_gives = { λ fault stop. stop ≡ scene_stop fault };

    fn from(fault: SceneFault) -> Self {
        match fault {
            SceneFault::UnknownMaterial { line } => Stop::Refused(Refusal::UnknownMaterial(line)),
            SceneFault::Memory => Stop::Memory,
        }
    }
}

impl From<WordFault> for Stop {
    ghost use Rattle.abuf_top.specs.Ends.{word_stop};

    ghost from_gives = { λ fault stop. stop ≡ word_stop fault };

    fn from(fault: WordFault) -> Self {
        match fault {
            WordFault::Words => Stop::Refused(Refusal::Words),
            WordFault::Value { option } => Stop::Refused(Refusal::Value(option)),
            WordFault::Memory => Stop::Memory,
        }
    }
}

/// A scene whose libraries are yet to be read.
fn furnish<H: Shelf>(alloc: Global, room: Room, obj: FlatObj, shelf: &mut H) -> Result<Loaded, Stop>
    requires { IsScene obj }
    ensures told { H.tells shelf.old ≡ true → Loads (library_verdict obj (H.holds shelf.old)) (Rose (H.faults shelf.old) (H.faults shelf.new)) result }
    ensures none { obj.libraries ≡ [] → Loads (material_verdict obj []) ⊥ result }
    ensures cause { IfErr result (HasReadCause (Rose (H.faults shelf.old) (H.faults shelf.new))) }
    ensures scene { IfOk result (λ loaded. IsScene loaded.obj) }
    ensures calls { H.tells shelf.old ≡ true → H.calls shelf.new ≤ H.calls shelf.old + asked (H.holds shelf.old) obj.libraries }
    ensures most { H.calls shelf.new ≤ H.calls shelf.old + length obj.libraries }
    ensures still { obj.libraries ≡ [] → (H.calls shelf.new ≡ H.calls shelf.old) × (H.faults shelf.new ≡ H.faults shelf.old) }
    ensures later { H.faults shelf.old ≤ H.faults shelf.new }
{
    let materials = read_libraries(alloc, shelf, obj.libraries().as_slice())?;
    Ok(Loaded {
        room,
        obj,
        materials,
    })
}

/// About how many bytes a primitive takes.
const PRIMITIVE_BYTES: usize = 64;

/// The room that there is for the primitives of a scene, or else room as large as its text of so many bytes. Taken right after the text
/// was freed, it takes the place of the text, below all that was read: what is freed of that is then one piece.
fn room_for(alloc: Global, room: Option<Room>, obj: &FlatObj, bytes: usize) -> Room
    ensures { result ≡ ([], []) }
{
    match room {
        Some(room) => room,
        None => {
            let faces = obj.faces();
            let triangles = faces
                .corner_count()
                .saturating_sub(faces.len().saturating_mul(2));
            Room::new(alloc, triangles.max(bytes / PRIMITIVE_BYTES))
        }
    }
}

/// On how many threads a scene is read at most. Joining what more of them read would take longer than the reading. And the caller's
/// stack holds 2 KiB for each, while Linux maps 128 KiB of it when a process starts, and may not be able to add to them.
const MAX_READERS: u32 = 32;

/// The scene that these bytes define. They are freed once they are read, so that what comes after can take their memory.
fn read_list<R: Threads + Sync>(
    rt: &R,
    alloc: Global,
    bytes: List<u8>,
    threads: u32,
) -> Result<FlatObj, ObjFault>
    requires few { length bytes ≤ MAX_BYTES }
    requires threads { (1 ≤ threads) × (threads ≤ MAX_THREADS) }
    ensures fault { IfErr result (TellsFirst (obj_fault bytes)) }
    ensures sound { OnOk result (obj_fault bytes ≡ None) }
    ensures points { IfOk result (λ obj. obj.points ≡ points bytes) }
    ensures faces { IfOk result (λ obj. obj.faces ≡ faces bytes) }
    ensures names { IfOk result (λ obj. obj.names ≡ names bytes) }
    ensures libraries { IfOk result (λ obj. obj.libraries ≡ libraries bytes) }
    ensures scene { IfOk result IsScene }
{
    read_obj_on_threads(rt, alloc, bytes.as_slice(), threads.min(MAX_READERS))
}

/// The scene that these bytes define, and its libraries. Where there is no room for its primitives yet, it takes some.
fn read_bytes<R: Threads + Sync, H: Shelf>(
    rt: &R,
    alloc: Global,
    room: Option<Room>,
    bytes: List<u8>,
    shelf: &mut H,
    threads: u32,
) -> Result<Loaded, Stop>
    requires few { length bytes ≤ MAX_BYTES }
    requires threads { (1 ≤ threads) × (threads ≤ MAX_THREADS) }
    ensures told { AnswersAsHeld (λ held. fault_verdict (scene_of bytes) held (obj_fault bytes)) (λ verdict rose. Loads verdict rose result)
        (shelf_change H.tells H.holds H.calls H.faults shelf.old shelf.new) }
    ensures cause { IfErr result (HasReadCause (Rose (H.faults shelf.old) (H.faults shelf.new))) }
    ensures scene { IfOk result (λ loaded. IsScene loaded.obj) }
    ensures calls { CallsHeld (λ held. fault_fetches (libraries bytes) held (obj_fault bytes))
        (shelf_change H.tells H.holds H.calls H.faults shelf.old shelf.new) }
    ensures most { H.calls shelf.new ≤ H.calls shelf.old + length (libraries bytes) }
    ensures later { H.faults shelf.old ≤ H.faults shelf.new }
{
    let size = bytes.as_slice().len();
    let obj = read_list(rt, alloc, bytes, threads)?;
    let room = room_for(alloc, room, &obj, size);
    furnish(alloc, room, obj, shelf)
}

/// The scene that these bytes define, unless they are too many, and its libraries, read on so many threads.
pub(crate) fn read_text<R: Threads + Sync, H: Shelf>(
    rt: &R,
    alloc: Global,
    room: Option<Room>,
    bytes: List<u8>,
    shelf: &mut H,
    threads: u32,
) -> Result<Loaded, Stop>
    requires threads { (1 ≤ threads) × (threads ≤ MAX_THREADS) }
    ensures told { AnswersAsHeld (λ held. scene_verdict held bytes) (λ verdict rose. Loads verdict rose result)
        (shelf_change H.tells H.holds H.calls H.faults shelf.old shelf.new) }
    ensures cause { IfErr result (HasReadCause (Rose (H.faults shelf.old) (H.faults shelf.new))) }
    ensures scene { IfOk result (λ loaded. IsScene loaded.obj) }
{
    if bytes.as_slice().len() as u64 > MAX_BYTES {
        return Err(Stop::Refused(Refusal::SceneTooLong));
    }
    read_bytes(rt, alloc, room, bytes, shelf, threads)
}

/// The scene that the source has left, and its libraries, read on so many threads.
#[tactic(auto, using(crate::proofs::Taking::takes))]
pub(crate) fn read_scene<R: Threads + Sync, S: Source, H: Shelf>(
    rt: &R,
    alloc: Global,
    scene: &mut S,
    shelf: &mut H,
    threads: u32,
) -> Result<Loaded, Stop>
    requires threads { (1 ≤ threads) × (threads ≤ MAX_THREADS) }
    ensures { LoadsBy scene_read scene_demand (source_change S.left S.faults scene.old scene.new)
        (shelf_change H.tells H.holds H.calls H.faults shelf.old shelf.new) result }
{
    let bytes = read_all(alloc, scene, MAX_BYTES)?;
    read_bytes(rt, alloc, None, bytes, shelf, threads)
}

/// The scene of a drawing, and its libraries, read on so many threads: `demo` has its own, and calls neither the source nor the shelf.
#[tactic(auto, using(crate::proofs::Taking::takes_none))]
pub(crate) fn load<R: Threads + Sync, S: Source, H: Shelf>(
    rt: &R,
    alloc: Global,
    what: What,
    scene: &mut S,
    shelf: &mut H,
    threads: u32,
) -> Result<Loaded, Stop>
    requires number { (number : ℕ) → what ≡ Demo number → (1 ≤ number) × (number ≤ 200000) }
    requires threads { (1 ≤ threads) × (threads ≤ MAX_THREADS) }
    ensures { LoadsBy (loaded what) (load_demand what) (source_change S.left S.faults scene.old scene.new)
        (shelf_change H.tells H.holds H.calls H.faults shelf.old shelf.new) result }
{
    match what {
        What::Render | What::Pick { .. } => read_scene(rt, alloc, scene, shelf, threads),
        What::Demo { number } => demonstrate(rt, alloc, number, threads),
    }
}
