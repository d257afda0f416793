// The table of the options and of the positional values.
ghost use Rattle.std.specs.Prelude.{◌≡◌};
ghost use Rattle.abuf_cli.specs.Options.{name_of, default_of, options_of};

use crate::job::Opt;
use crate::parsing::CommandName;

impl Opt {
    /// The name, as it stands after `--`, or of a positional value.
    pub fn name(self) -> &'static str
        ensures { result.now ≡ name_of self }
    {
        match self {
            Opt::Size => "size",
            Opt::Samples => "samples",
            Opt::Threads => "threads",
            Opt::Nodes => "nodes",
            Opt::Turn => "turn",
            Opt::Shift => "move",
            Opt::Focal => "focal",
            Opt::Near => "near",
            Opt::Background => "background",
            Opt::Maxval => "maxval",
            Opt::Bands => "bands",
            Opt::Path => "path",
            Opt::At => "at",
            Opt::Number => "number",
        }
    }

    /// The text that stands where none is given: none for bands, and for what has to be given.
    pub(crate) fn default_text(self) -> &'static str
        ensures { result.now ≡ default_of self }
    {
        match self {
            Opt::Size => "640x480",
            Opt::Samples => "1",
            Opt::Threads => "4",
            Opt::Nodes => "4194304",
            Opt::Turn => "1,0,0,0",
            Opt::Shift => "0,0,-4",
            Opt::Focal => "1",
            Opt::Near => "0.125",
            Opt::Background => "0,0,0",
            Opt::Maxval => "255",
            Opt::Bands | Opt::Path | Opt::At | Opt::Number => "",
        }
    }
}

static RENDER_OPTIONS: [Opt; 11] = [
    Opt::Size,
    Opt::Samples,
    Opt::Threads,
    Opt::Nodes,
    Opt::Turn,
    Opt::Shift,
    Opt::Focal,
    Opt::Near,
    Opt::Background,
    Opt::Maxval,
    Opt::Bands,
];

static IMAGE_OPTIONS: [Opt; 10] = [
    Opt::Size,
    Opt::Samples,
    Opt::Threads,
    Opt::Nodes,
    Opt::Turn,
    Opt::Shift,
    Opt::Focal,
    Opt::Near,
    Opt::Background,
    Opt::Maxval,
];

static SEQUENCE_OPTIONS: [Opt; 8] = [
    Opt::Size,
    Opt::Samples,
    Opt::Threads,
    Opt::Nodes,
    Opt::Focal,
    Opt::Near,
    Opt::Background,
    Opt::Maxval,
];

/// The options of a command that take a value.
pub(crate) fn options_of(name: CommandName) -> &'static [Opt]
    ensures { result.now ≡ options_of name }
{
    match name {
        CommandName::Render => &RENDER_OPTIONS,
        CommandName::Pick | CommandName::Demo => &IMAGE_OPTIONS,
        CommandName::Sequence => &SEQUENCE_OPTIONS,
    }
}
