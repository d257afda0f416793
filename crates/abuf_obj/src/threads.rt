// Scenes read on threads.
ghost use Rattle.std.specs.Prelude.{◌≡◌, ◌<◌, ◌-◌, ◌^◌, ◌≤◌, length, IfErr, OnOk, IfOk, None};
ghost use Rattle.abuf_num.specs.declared.limits.TheConstants.{MAX_THREADS};
ghost use Rattle.abuf_obj.specs.Faults.{TellsFirst};
ghost use Rattle.abuf_obj.specs.Scene.{points, faces, names, libraries, obj_fault};
ghost use Rattle.abuf_obj.specs.Sound.{IsScene};

use crate::fault::ObjFault;
use crate::given_up::GivenUp;
use crate::pieces::{join_pieces, read_pieces};
use crate::reader::ObjReader;
use crate::scene::{FlatObj, finish, first_astray, read_flat};
use abuf_text::Names;
use std::alloc::Global;
use std::thread::Threads;

/// The fewest bytes of a piece: fewer are sooner read than a thread is started for them.
const MIN_BYTES: usize = 131072;

/// Reads a scene in so many pieces, however few its bytes are, each piece on a thread. It gives up where a line is at fault, a limit
/// is met or memory runs out; and where, in a piece before the last, more than 65536 lines have names, or one of more than 256 bytes.
pub fn read_in_pieces<R: Threads + Sync>(
    rt: &R,
    alloc: Global,
    bytes: &[u8],
    pieces: u32,
) -> Result<FlatObj, GivenUp>
    requires few { length bytes.now < 2 ^ 32 - 1 }
    requires pieces { (1 ≤ pieces) × (pieces ≤ MAX_THREADS) }
    ensures sound { OnOk result (obj_fault bytes.now ≡ None) }
    ensures points { IfOk result (λ obj. obj.points ≡ points bytes.now) }
    ensures faces { IfOk result (λ obj. obj.faces ≡ faces bytes.now) }
    ensures names { IfOk result (λ obj. obj.names ≡ names bytes.now) }
    ensures libraries { IfOk result (λ obj. obj.libraries ≡ libraries bytes.now) }
    ensures scene { IfOk result IsScene }
{
    let start = ObjReader::beginning(alloc, 0, 0, Names::new(alloc), Names::new(alloc), None)?;
    let readers = read_pieces(rt, alloc, pieces, 0, &start, bytes)?;
    let reader = join_pieces(readers)?;
    let obj = finish(reader);
    match first_astray(&obj) {
        Some(_) => Err(GivenUp),
        None => Ok(obj),
    }
}

/// Reads a scene as [`read_obj`](crate::read_obj) does, and gives the same answer, on at most so many threads.
///
/// A file of at least 262144 bytes is shared, 131072 bytes or more for each thread. While the pieces are joined, one after another,
/// the points and faces of all but the first take as much memory again. Where the pieces are [given up](read_in_pieces), the file is
/// read once more on one thread, which finds the first fault.
pub fn read_obj_on_threads<R: Threads + Sync>(
    rt: &R,
    alloc: Global,
    bytes: &[u8],
    threads: u32,
) -> Result<FlatObj, ObjFault>
    requires few { length bytes.now < 2 ^ 32 - 1 }
    requires threads { (1 ≤ threads) × (threads ≤ MAX_THREADS) }
    ensures fault { IfErr result (TellsFirst (obj_fault bytes.now)) }
    ensures sound { OnOk result (obj_fault bytes.now ≡ None) }
    ensures points { IfOk result (λ obj. obj.points ≡ points bytes.now) }
    ensures faces { IfOk result (λ obj. obj.faces ≡ faces bytes.now) }
    ensures names { IfOk result (λ obj. obj.names ≡ names bytes.now) }
    ensures libraries { IfOk result (λ obj. obj.libraries ≡ libraries bytes.now) }
    ensures scene { IfOk result IsScene }
{
    let pieces = threads.min((bytes.len() / MIN_BYTES) as u32);
    if pieces < 2 {
        return read_flat(alloc, bytes);
    }
    match read_in_pieces(rt, alloc, bytes, pieces) {
        Ok(obj) => Ok(obj),
        Err(GivenUp) => read_flat(alloc, bytes),
    }
}
