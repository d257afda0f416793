// What the options ask for.
ghost use Rattle.std.specs.Prelude.{◌≡◌, IfOk};
ghost use Rattle.clap.specs.Words.{rows_of, found_of};
ghost use Rattle.abuf_view.specs.Camera.{IsSize, IsLens, IsCamera, camera};
ghost use Rattle.abuf_cli.specs.Jobs.{lens_of};
ghost use Rattle.abuf_cli.specs.Poses.{IsPose};

use crate::job::{Opt, Storage, WordFault};
use crate::parsing::{CommandName, given_text, is_given, text_of};
use crate::values::{
    ImageSize, background_of, bands_of, focal_of, maxval_of, near_of, nodes_of, pattern_of,
    shift_of, size_of, threads_of, turn_of,
};
use abuf_raster::Pattern;
use abuf_view::{Camera, Lens};
use clap::ArgMatches;

/// Where the camera stands and looks. The shift is in units of 1/65536.
#[derive(Clone, Copy)]
pub(crate) struct Pose {
    pub(crate) turn: [i32; 4],
    pub(crate) shift: [i64; 3],
}

impl Pose {
    ghost use Rattle.std.specs.Prelude.{IfOk};
    ghost use Rattle.abuf_cli.specs.Poses.{IsPose};
    ghost use Rattle.abuf_cli.specs.Jobs.{given_pose, pose_of};

    /// The pose that the texts give.
    fn given(matches: &ArgMatches) -> Result<Pose, WordFault>
        ensures value { result ≡ given_pose (rows_of (found_of matches.now)) }
        ensures sound { IfOk result IsPose }
    {
        let Some(turn) = turn_of(text_of(matches, Opt::Turn).as_bytes()) else {
            return Err(WordFault::Value { option: Opt::Turn });
        };
        let Some(shift) = shift_of(text_of(matches, Opt::Shift).as_bytes()) else {
            return Err(WordFault::Value { option: Opt::Shift });
        };
        Ok(Pose { turn, shift })
    }

    /// The pose of a command: that of the texts, where it takes them.
    fn read(name: CommandName, matches: &ArgMatches) -> Result<Pose, WordFault>
        ensures value { result ≡ pose_of name (rows_of (found_of matches.now)) }
        ensures sound { IfOk result IsPose }
    {
        match name {
            CommandName::Render | CommandName::Pick | CommandName::Demo => Pose::given(matches),
            CommandName::Sequence => Ok(Pose {
                turn: [1, 0, 0, 0],
                shift: [0, 0, -262144],
            }),
        }
    }
}

/// The lens that the texts give.
fn lens_of(matches: &ArgMatches) -> Result<Lens, WordFault>
    ensures value { result ≡ lens_of (rows_of (found_of matches.now)) }
    ensures sound { IfOk result (λ l. IsLens l.focal l.near) }
{
    let Some(focal) = focal_of(text_of(matches, Opt::Focal).as_bytes()) else {
        return Err(WordFault::Value { option: Opt::Focal });
    };
    let Some(near) = near_of(text_of(matches, Opt::Near).as_bytes()) else {
        return Err(WordFault::Value { option: Opt::Near });
    };
    Ok(Lens { focal, near })
}

/// The camera of this size, pose and lens. What they keep to is Camera's own invariant, in parts.
pub(crate) fn camera_of(size: ImageSize, pose: Pose, lens: Lens) -> Camera
    requires size { IsSize size.width size.height }
    requires pose { IsPose pose }
    requires lens { IsLens lens.focal lens.near }
    ensures value { result ≡ camera size.width size.height pose.turn pose.shift lens.focal lens.near }
    ensures sound { IsCamera result }
{
    Camera::new_unchecked(size.width, size.height, pose.turn, pose.shift, lens)
}

impl Storage {
    ghost use Rattle.std.specs.Prelude.{◌≡◌, option_map, IfOk};
    ghost use Rattle.clap.specs.Words.{rows_of, found_of};
    ghost use Rattle.abuf_cli.specs.Jobs.{render_storage, storage_of};
    ghost use Rattle.abuf_cli.specs.Sound.{IsWithinHeight, IsStorage};

    /// How the fragments of a render are stored, by the text of `bands` and whether `peel` is given.
    fn of_render(height: u32, bands: Option<&str>, peel: bool) -> Result<Storage, WordFault>
        ensures value { result ≡ render_storage height (option_map (λ t. t.now) bands.entry) peel }
        ensures sound { IfOk result (IsWithinHeight height) }
    {
        match bands {
            None if peel => Ok(Storage::Layers),
            None => Ok(Storage::OneFrame),
            Some(_) if peel => Err(WordFault::Value { option: Opt::Bands }),
            Some(text) => match bands_of(height, text.as_bytes()) {
                Some(bands) => Ok(Storage::Bands(bands)),
                None => Err(WordFault::Value { option: Opt::Bands }),
            },
        }
    }

    /// How the fragments of a command are stored, where the image has this height.
    fn read(name: CommandName, height: u32, matches: &ArgMatches) -> Result<Storage, WordFault>
        ensures value { result ≡ storage_of name height (rows_of (found_of matches.now)) }
        ensures sound { IfOk result (IsStorage height name) }
    {
        match name {
            CommandName::Render => {
                Storage::of_render(
                    height,
                    given_text(matches, Opt::Bands.name()),
                    is_given(matches, "peel"),
                )
            }
            CommandName::Pick | CommandName::Demo | CommandName::Sequence => Ok(Storage::OneFrame),
        }
    }
}

/// What the options ask for.
#[derive(Clone, Copy)]
pub(crate) struct Settings {
    pub(crate) size: ImageSize,
    pub(crate) pattern: Pattern,
    pub(crate) threads: u32,
    pub(crate) nodes: u32,
    pub(crate) pose: Pose,
    pub(crate) lens: Lens,
    pub(crate) background: [u16; 3],
    pub(crate) maxval: u32,
    pub(crate) storage: Storage,
}

impl Settings {
    ghost use Rattle.std.specs.Prelude.{◌≡◌, IfOk};
    ghost use Rattle.clap.specs.Words.{rows_of, found_of};
    ghost use Rattle.abuf_cli.specs.Jobs.{settings_of};
    ghost use Rattle.abuf_cli.specs.Sound.{IsSettings};

    /// The settings of the texts, in the order in which they are refused.
    pub(crate) fn read(name: CommandName, matches: &ArgMatches) -> Result<Settings, WordFault>
        ensures value { result ≡ settings_of name (rows_of (found_of matches.now)) }
        ensures sound { IfOk result (IsSettings name) }
    {
        let Some(size) = size_of(text_of(matches, Opt::Size).as_bytes()) else {
            return Err(WordFault::Value { option: Opt::Size });
        };
        let Some(pattern) = pattern_of(text_of(matches, Opt::Samples)) else {
            return Err(WordFault::Value {
                option: Opt::Samples,
            });
        };
        let Some(threads) = threads_of(text_of(matches, Opt::Threads).as_bytes()) else {
            return Err(WordFault::Value {
                option: Opt::Threads,
            });
        };
        let Some(nodes) = nodes_of(text_of(matches, Opt::Nodes).as_bytes()) else {
            return Err(WordFault::Value { option: Opt::Nodes });
        };
        let pose = Pose::read(name, matches)?;
        let lens = lens_of(matches)?;
        let Some(background) = background_of(text_of(matches, Opt::Background).as_bytes()) else {
            return Err(WordFault::Value {
                option: Opt::Background,
            });
        };
        let Some(maxval) = maxval_of(text_of(matches, Opt::Maxval)) else {
            return Err(WordFault::Value {
                option: Opt::Maxval,
            });
        };
        let storage = Storage::read(name, size.height, matches)?;
        Ok(Settings {
            size,
            pattern,
            threads,
            nodes,
            pose,
            lens,
            background,
            maxval,
            storage,
        })
    }
}
