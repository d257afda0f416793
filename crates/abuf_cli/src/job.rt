// The job that the words ask for.
ghost use Rattle.std.specs.Prelude.{◌≡◌, ℕ, map, IfOk};
ghost use Rattle.std.specs.String.{string_bytes};
ghost use Rattle.clap.specs.Words.{rows_of, found_of};
ghost use Rattle.abuf_cli.specs.Commands.{app_of_command, matches};
ghost use Rattle.abuf_cli.specs.Sound.{IsCommand, name_of};
ghost use Rattle.abuf_cli.specs.declared.parsing.CommandName.TheVariants.{Sequence};
ghost use Rattle.abuf_cli.specs.Jobs.{sequence_of, command_of, job_of, of_matches, first_command, job, Answers};

use crate::parsing::{CommandName, command_named, matches_of, text_of};
use crate::settings::{Settings, camera_of};
use crate::values::{ImageSize, PixelPosition, at_of, number_of};
use abuf_num::List;
use abuf_raster::Pattern;
use abuf_view::Camera;
use clap::ArgMatches;
use std::alloc::Global;
use std::marker::Model;

/// What is made of one drawing: the command that the first word names, and the positional value that it takes.
#[derive(Clone, Copy, Debug, PartialEq, Eq)]
pub enum What {
    /// The image of a scene, by `render`.
    Render,
    /// The fragments of one pixel, by `pick`: x from the left and y from the top, both from 0, and within the image.
    Pick { x: u32, y: u32 },
    /// The demonstration scene of this many triangles, from 1 to 200000, by `demo`.
    Demo { number: u32 },
}

/// What is to be done.
#[derive(Drop)]
pub enum Command {
    /// A drawing, and what is made of it.
    Draw(What),
    /// An image for each shot of a path file, by `sequence`: the name of that file, which isn't empty.
    Sequence { name: List<u8> },
}

/// How the fragments of an image are stored. `render` alone has bands or layers.
#[derive(Clone, Copy, Debug, PartialEq, Eq)]
pub enum Storage {
    /// All in one frame.
    OneFrame,
    /// In one band of rows after another, each with a frame of its own: the number of bands, from 1 to the height of the image.
    Bands(u32),
    /// Not at all: the image is peeled layer by layer.
    Layers,
}

/// What a text on the command line is given for, in the order in which their texts are refused: the options of the
/// commands, the bands of `render`, and then the positional value of the command. `sequence` has neither a turn nor a shift.
#[derive(Clone, Copy, Debug, PartialEq, Eq)]
pub enum Opt {
    /// `--size WxH`, in pixels: each from 1 to 4096, and their product at most 4194304. 640x480 by default.
    Size,
    /// `--samples`: 1, 2, 4, 8 or 16 to a pixel. 1 by default.
    Samples,
    /// `--threads`, from 1 to 64. 4 by default.
    Threads,
    /// `--nodes`, the fragments that the pool has room for, from 1 to 8388608. 4194304 by default.
    Nodes,
    /// `--turn a,b,c,d`, a quaternion: each component from -1024 to 1024, and not all 0. 1,0,0,0 by default.
    Turn,
    /// `--move x,y,z`, a shift in lengths of the scene: at most 2147483647/65536 either way. 0,0,-4 by default.
    Shift,
    /// `--focal`, from 1/65536 to 16. 1 by default.
    Focal,
    /// `--near`, from 1/16 to 2147483647/65536. 0.125 by default.
    Near,
    /// `--background r,g,b`, of which 1 is full; what lies past 0 or 1 is clamped. 0,0,0 by default.
    Background,
    /// `--maxval`: 255 or 65535. 255 by default.
    Maxval,
    /// `--bands`, from 1 to the height of the image: for `render` alone, and not with `--peel`. No bands by default.
    Bands,
    /// The `NAME` of `sequence`, the name of a path file, which isn't empty. It has to be given.
    Path,
    /// The `X,Y` of `pick`, a pixel: X from 0 to the width less 1, and Y from 0 to the height less 1. It has to be given.
    At,
    /// The `N` of `demo`, a number of triangles, from 1 to 200000. It has to be given.
    Number,
}

/// Why the words give no job.
#[derive(Clone, Copy, Debug, PartialEq, Eq)]
pub enum WordFault {
    /// There is no word, the first names no command, or `clap` has no matches for the others.
    Words,
    /// The text of this option or value isn't in its form or range, or bands are given with `--peel`; it is the first
    /// such text.
    Value { option: Opt },
    /// Memory ran out; it may come at any words.
    Memory,
}

/// What the words ask for. Each value is within the range of its option.
#[derive(Drop)]
pub struct Job {
    command: Command,
    camera: Camera,
    pattern: Pattern,
    threads: u32,
    nodes: u32,
    background: [u16; 3],
    maxval: u32,
    storage: Storage,
}

impl Model for Job {
    ghost use Rattle.abuf_cli.specs.Job.{Job as Asked, asked};
    ghost use Rattle.abuf_cli.specs.Sound.{IsJob};

    ghost Value = { Asked };

    ghost view = { λ j. asked j.command j.camera j.pattern j.threads j.nodes j.background j.maxval j.storage };

    ghost invariant = { λ j. IsJob (asked j.command j.camera j.pattern j.threads j.nodes j.background j.maxval j.storage) };
}

impl Job {
    ghost use Rattle.abuf_cli.specs.Jobs.{job_from};
    ghost use Rattle.abuf_cli.specs.Sound.{IsSettings, IsCommand, IsJob, name_of};

    /// The job of these settings that does this.
    fn of(settings: Settings, command: Command) -> Job
        requires settings { IsSettings (name_of command) settings }
        requires command { IsCommand settings.size.width settings.size.height command }
        ensures { result ≡ job_from settings command }
    {
        let background = settings.background;
        Job {
            command,
            camera: camera_of(settings.size, settings.pose, settings.lens),
            pattern: settings.pattern,
            threads: settings.threads,
            nodes: settings.nodes,
            background,
            maxval: settings.maxval,
            storage: settings.storage,
        }
    }

    /// What is to be done.
    #[inline(always)]
    pub fn command(&self) -> &Command
        ensures value { result.now ≡ self.now.command }
        ensures job { IsJob self.now }
    {
        &self.command
    }

    /// The camera, and with it the size of the image. For `sequence` it has the turn and the shift of their defaults.
    #[inline(always)]
    pub fn camera(&self) -> &Camera
        ensures value { result.now ≡ self.now.camera }
        ensures job { IsJob self.now }
    {
        &self.camera
    }

    /// The pattern of a pixel's samples.
    #[inline(always)]
    pub fn pattern(&self) -> Pattern
        ensures value { result ≡ self.now.pattern }
        ensures job { IsJob self.now }
    {
        self.pattern
    }

    /// The number of threads that draw and resolve, from 1 to 64.
    #[inline(always)]
    pub fn threads(&self) -> u32
        ensures value { result ≡ self.now.threads }
        ensures job { IsJob self.now }
    {
        self.threads
    }

    /// The number of fragments that the pool has room for, from 1 to 8388608.
    #[inline(always)]
    pub fn nodes(&self) -> u32
        ensures value { result ≡ self.now.nodes }
        ensures job { IsJob self.now }
    {
        self.nodes
    }

    /// The colour behind all primitives, each channel from 0 to 65535.
    #[inline(always)]
    pub fn background(&self) -> [u16; 3]
        ensures value { result ≡ self.now.background }
        ensures job { IsJob self.now }
    {
        self.background
    }

    /// The greatest value in the image: 255 or 65535.
    #[inline(always)]
    pub fn maxval(&self) -> u32
        ensures value { result ≡ self.now.maxval }
        ensures job { IsJob self.now }
    {
        self.maxval
    }

    /// How the fragments of the image are stored: in one frame, but for `render` with bands or layers.
    #[inline(always)]
    pub fn storage(&self) -> Storage
        ensures value { result ≡ self.now.storage }
        ensures job { IsJob self.now }
    {
        self.storage
    }
}

/// The sequence of the path file of this name.
fn sequence_of(alloc: Global, name: &[u8]) -> Result<Command, WordFault>
    ensures answer { Answers (sequence_of name.now) result }
    ensures sound { (width height : ℕ) → IfOk result (IsCommand width height) }
    ensures named { IfOk result (λ command. name_of command ≡ Sequence) }
{
    if name.is_empty() {
        return Err(WordFault::Value { option: Opt::Path });
    }
    match name.to_vec(alloc) {
        Ok(name) => Ok(Command::Sequence {
            name: List::from_vec(name),
        }),
        Err(_) => Err(WordFault::Memory),
    }
}

/// The command of this name, where the image has this size.
fn command_of(
    alloc: Global,
    name: CommandName,
    size: ImageSize,
    matches: &ArgMatches,
) -> Result<Command, WordFault>
    ensures answer { Answers (command_of name size (rows_of (found_of matches.now))) result }
    ensures sound { IfOk result (IsCommand size.width size.height) }
    ensures named { IfOk result (λ command. name_of command ≡ name) }
{
    match name {
        CommandName::Render => Ok(Command::Draw(What::Render)),
        CommandName::Pick => match at_of(size, text_of(matches, Opt::At).as_bytes()) {
            Some(PixelPosition { x, y }) => Ok(Command::Draw(What::Pick { x, y })),
            None => Err(WordFault::Value { option: Opt::At }),
        },
        CommandName::Demo => match number_of(text_of(matches, Opt::Number).as_bytes()) {
            Some(number) => Ok(Command::Draw(What::Demo { number })),
            None => Err(WordFault::Value {
                option: Opt::Number,
            }),
        },
        CommandName::Sequence => sequence_of(alloc, text_of(matches, Opt::Path).as_bytes()),
    }
}

/// The job of the texts, in the order in which they are refused.
fn job_of(alloc: Global, name: CommandName, matches: &ArgMatches) -> Result<Job, WordFault>
    ensures answer { Answers (job_of name (rows_of (found_of matches.now))) result }
{
    let settings = Settings::read(name, matches)?;
    let command = command_of(alloc, name, settings.size, matches)?;
    Ok(Job::of(settings, command))
}

/// The job of the words of a command, of which the first is its name.
fn command_job(alloc: Global, name: CommandName, words: &[String]) -> Result<Job, WordFault>
    ensures answer { Answers (of_matches name (matches (app_of_command name) (map string_bytes words.now))) result }
{
    let matches = matches_of(alloc, name, words)?;
    job_of(alloc, name, &matches)
}

/// The command that the first word names.
fn first_command(words: &[String]) -> Option<CommandName>
    ensures { result ≡ first_command (map string_bytes words.now) }
{
    match words.first() {
        Some(word) => command_named(word.as_str()),
        None => None,
    }
}

/// Reads the words after the program's name: the name of a command, then what `clap` reads.
///
/// `Words` comes where there is no first word, where it names no command, or where `clap` has no matches for the words
/// after it (a request for help is such a case, and a value that has to be given and isn't). `Value` comes where the
/// words parse and a text isn't in its form or range, and names the first such text in the order of [`Opt`]; with
/// `--peel`, `--bands` is refused whatever its text.
pub fn read_words(alloc: Global, words: &[String]) -> Result<Job, WordFault>
    ensures answer { Answers (job (map string_bytes words.now)) result }
{
    match first_command(words) {
        Some(name) => command_job(alloc, name, words),
        None => Err(WordFault::Words),
    }
}
