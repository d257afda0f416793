// The shots of a path.
ghost use Rattle.std.specs.Prelude.{◌≡◌, ◌<◌, ◌≤◌, ◌^◌, ◌-◌, ◌++◌, length, option_to_list, All, IfSome, IfOk, OnOk, Some, None, Ok};
ghost use Rattle.abuf_num.specs.declared.limits.TheConstants.{MAX_IMAGES};
ghost use Rattle.abuf_num.specs.Texts.{scaled_number};
ghost use Rattle.abuf_text.specs.Statement.{statement};
ghost use Rattle.abuf_view.specs.Camera.{IsTurn, IsBounded, quaternion_of, point_of};
ghost use Rattle.abuf_sequence.specs.Paths.{shift_from, shot_from, said, IsPath, IsShot, IsShotOn};

use abuf_num::limits::MAX_IMAGES;
use abuf_num::{List, NoMemory, scaled_number};
use abuf_text::{Lines, Statement};
use abuf_view::turn_from;
use std::alloc::Global;

/// One image of a sequence: how the camera is turned and shifted for it.
#[derive(Clone, Copy, Debug, PartialEq, Eq)]
pub struct Shot {
    /// A quaternion: each component from -1024 to 1024, and not all 0.
    pub turn: [i32; 4],
    /// The shift in units of 1/65536, each coordinate at most 2147483647 either way.
    pub shift: [i64; 3],
}

/// Why a line of a path is refused. The first cause in this order counts.
#[derive(Clone, Copy, Debug, PartialEq, Eq)]
pub enum PathWhy {
    /// The line has tokens, and not seven.
    WrongCount,
    /// One of the first four tokens isn't a number from -1024 to 1024 in its form, or all four are 0.
    BadTurn,
    /// One of the last three tokens isn't a number that a shift may have.
    BadNumber,
    /// The line would be the path's image 4097.
    TooMany,
}

/// Why there are no shots.
#[derive(Clone, Copy, Debug, PartialEq, Eq)]
pub enum PathFault {
    /// The first line that is refused, counted from 1.
    Line { line: u32, why: PathWhy },
    /// Memory ran out.
    Memory,
}

impl From<NoMemory> for PathFault {
    ghost use Rattle.std.specs.Prelude.{◌≡◌};
    ghost use Rattle.abuf_sequence.specs.declared.path.PathFault.TheVariants.{Memory};

    ghost from_gives = { λ _ fault. fault ≡ Memory };

    fn from(_: NoMemory) -> Self {
        PathFault::Memory
    }
}

/// The shift of the texts of its coordinates.
fn shift_of_parts(x: &[u8], y: &[u8], z: &[u8]) -> Option<[i64; 3]>
    ensures value { result ≡ shift_from (scaled_number 65536 x.now) (scaled_number 65536 y.now) (scaled_number 65536 z.now) }
    ensures range { IfSome result (λ s. IsBounded (point_of s)) }
{
    match (
        scaled_number(x, 65536),
        scaled_number(y, 65536),
        scaled_number(z, 65536),
    ) {
        (Some(x), Some(y), Some(z)) => Some([x, y, z]),
        _ => None,
    }
}

/// The shot of a turn and a shift.
fn shot_from(turn: Option<[i32; 4]>, shift: Option<[i64; 3]>) -> Result<Option<Shot>, PathWhy>
    requires turn { IfSome turn (λ t. IsTurn (quaternion_of t)) }
    requires shift { IfSome shift (λ s. IsBounded (point_of s)) }
    ensures value { result ≡ shot_from turn shift }
    ensures sound { IfOk result (λ shot. IfSome shot IsShot) }
{
    let Some(turn) = turn else {
        return Err(PathWhy::BadTurn);
    };
    let Some(shift) = shift else {
        return Err(PathWhy::BadNumber);
    };
    Ok(Some(Shot { turn, shift }))
}

/// What a line says by itself.
fn said(line: &[u8]) -> Result<Option<Shot>, PathWhy>
    ensures value { result ≡ said (statement line.now) }
    ensures sound { IfOk result (λ shot. IfSome shot IsShot) }
{
    let mut left = Statement::new(line);
    let Some(a) = left.next() else {
        return Ok(None);
    };
    let (Some(b), Some(c), Some(d)) = (left.next(), left.next(), left.next()) else {
        return Err(PathWhy::WrongCount);
    };
    let (Some(x), Some(y), Some(z), None) = (left.next(), left.next(), left.next(), left.next())
    else {
        return Err(PathWhy::WrongCount);
    };
    shot_from(turn_from(a, b, c, d), shift_of_parts(x, y, z))
}

/// The shot of a line that has so many shots above it.
fn shot_on(line: &[u8], above: usize) -> Result<Option<Shot>, PathWhy>
    ensures value { IsShotOn above line.now result }
    ensures sound { IfOk result (λ shot. IfSome shot IsShot) }
    ensures room { IfOk result (λ shot. IfSome shot (λ _. above < MAX_IMAGES)) }
{
    match said(line)? {
        Some(_) if above >= MAX_IMAGES => Err(PathWhy::TooMany),
        shot => Ok(shot),
    }
}

/// Puts a shot last, if there is one.
fn push_some(shots: &mut List<Shot>, shot: Option<Shot>) -> Result<(), NoMemory>
    ensures { OnOk result (shots.new ≡ shots.old ++ option_to_list shot) }
{
    match shot {
        Some(shot) => shots.push(shot),
        None => Ok(()),
    }
}

/// The shots of a path, in the order of its lines, or its first line that is refused. The path has fewer than 2^32 - 1 bytes.
pub fn read_path(alloc: Global, bytes: &[u8]) -> Result<List<Shot>, PathFault>
    requires { length bytes.now < 2 ^ 32 - 1 }
    ensures answer { IsPath bytes.now result }
    ensures sound { IfOk result (All IsShot) }
    ensures few { IfOk result (λ shots. length shots ≤ MAX_IMAGES) }
{
    let mut shots = List::new(alloc);
    let mut number: u32 = 1;
    for line in Lines::new(bytes) {
        match shot_on(line, shots.as_slice().len()) {
            Ok(shot) => push_some(&mut shots, shot)?,
            Err(why) => return Err(PathFault::Line { line: number, why }),
        }
        number += 1;
    }
    Ok(shots)
}
