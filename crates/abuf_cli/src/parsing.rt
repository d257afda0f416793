// Commands by `clap`.
ghost use Rattle.std.specs.Prelude.{◌≡◌, IfOk, IfErr, map, option_map, Some, None, Err, true};
ghost use Rattle.std.specs.String.{string_bytes};
ghost use Rattle.clap.specs.Words.{app_of, rule_of, rows_of, found_of, with_rule, first_of, is_simple_and_free};
ghost use Rattle.abuf_cli.specs.Options.{name_of, options_of};
ghost use Rattle.abuf_cli.specs.Commands.{option_rule, flag_rule, with_options, positional_rule, own_rule, app_of_command, command_named, matches, text_of, is_given};
ghost use Rattle.abuf_cli.specs.Jobs.{IsOfWords};

use crate::job::{Opt, WordFault};
use crate::options::options_of;
use clap::error::ErrorKind;
use clap::{Arg, ArgAction, ArgMatches, Command};
use std::alloc::{AllocError, Global};

/// A command, by the word that names it.
#[derive(Clone, Copy, Debug, PartialEq, Eq)]
pub(crate) enum CommandName {
    /// `render`, the image of a scene.
    Render,
    /// `pick`, the fragments of one pixel.
    Pick,
    /// `demo`, the demonstration scene.
    Demo,
    /// `sequence`, an image for each shot of a path file.
    Sequence,
}

/// The command that this word names.
pub(crate) fn command_named(word: &str) -> Option<CommandName>
    ensures { result ≡ command_named word.now }
{
    match word {
        "render" => Some(CommandName::Render),
        "pick" => Some(CommandName::Pick),
        "demo" => Some(CommandName::Demo),
        "sequence" => Some(CommandName::Sequence),
        _ => None,
    }
}

fn with_option<'a>(
    alloc: Global,
    command: Command<'a>,
    name: &'a str,
) -> Result<Command<'a>, AllocError>
    ensures { IfOk result (λ r. app_of r ≡ with_rule (app_of command.entry) (option_rule name.entry.now)) }
{
    command.arg(Arg::new(alloc, name).long(name))
}

/// A command with a flag, which takes no value.
fn with_flag<'a>(
    alloc: Global,
    command: Command<'a>,
    name: &'a str,
) -> Result<Command<'a>, AllocError>
    ensures { IfOk result (λ r. app_of r ≡ with_rule (app_of command.entry) (flag_rule name.entry.now)) }
{
    command.arg(Arg::new(alloc, name).long(name).action(ArgAction::SetTrue))
}

/// A command with a positional value, which has to be given.
fn with_positional<'a>(
    alloc: Global,
    command: Command<'a>,
    name: &'a str,
) -> Result<Command<'a>, AllocError>
    ensures { IfOk result (λ r. app_of r ≡ with_rule (app_of command.entry) (positional_rule name.entry.now)) }
{
    command.arg(Arg::new(alloc, name).required(true))
}

/// A command with each of these options.
fn with_options_of<'a>(
    alloc: Global,
    command: Command<'a>,
    options: &'static [Opt],
) -> Result<Command<'a>, AllocError>
    ensures { IfOk result (λ r. app_of r ≡ with_options (app_of command.entry) options.now) }
{
    let mut command = command;
    for option in options {
        command = with_option(alloc, command, option.name())?;
    }
    Ok(command)
}

fn command_of<'a>(alloc: Global, name: CommandName) -> Result<Command<'a>, AllocError>
    ensures { IfOk result (λ r. app_of r ≡ app_of_command name) }
{
    let command = with_options_of(alloc, Command::new(alloc, "abuf"), options_of(name))?;
    match name {
        CommandName::Render => with_flag(alloc, command, "peel"),
        CommandName::Pick => with_positional(alloc, command, Opt::At.name()),
        CommandName::Demo => with_positional(alloc, command, Opt::Number.name()),
        CommandName::Sequence => with_positional(alloc, command, Opt::Path.name()),
    }
}

/// What `clap` finds in the words, of which the first is the command's name.
fn parse<'a>(command: Command<'a>, words: &'a [String]) -> Result<ArgMatches<'a>, WordFault>
    requires { is_simple_and_free (app_of command) ≡ true }
    ensures found { IfOk result (λ m. matches (app_of command.entry) (map string_bytes words.entry.now) ≡ Some (rows_of (found_of m))) }
    ensures none { result ≡ Err WordFault.Words → matches (app_of command.entry) (map string_bytes words.entry.now) ≡ None }
    ensures cause { IfErr result IsOfWords }
{
    match command.try_get_matches_from(words) {
        Ok(matches) => Ok(matches),
        Err(error) => match error.kind() {
            ErrorKind::OutOfMemory => Err(WordFault::Memory),
            _ => Err(WordFault::Words),
        },
    }
}

/// The text that an option or a value was given.
pub(crate) fn given_text<'a>(matches: &ArgMatches<'a>, name: &str) -> Option<&'a str>
    ensures { option_map (λ t. t.now) result ≡ first_of name.now (rows_of (found_of matches.now)) }
{
    matches.get_str(name)
}

/// The text that an option or a value was given, or that of its default.
pub(crate) fn text_of<'a>(matches: &ArgMatches<'a>, option: Opt) -> &'a str
    ensures { result.now ≡ text_of option (rows_of (found_of matches.now)) }
{
    match given_text(matches, option.name()) {
        Some(text) => text,
        None => option.default_text(),
    }
}

/// Whether a flag was given.
pub(crate) fn is_given(matches: &ArgMatches, name: &str) -> bool
    ensures { result ≡ is_given name.now (rows_of (found_of matches.now)) }
{
    match given_text(matches, name) {
        Some(text) => text == "true",
        None => false,
    }
}

/// What `clap` finds in the words of a command, of which the first is its name.
pub(crate) fn matches_of<'a>(
    alloc: Global,
    name: CommandName,
    words: &'a [String],
) -> Result<ArgMatches<'a>, WordFault>
    ensures found { IfOk result (λ m. matches (app_of_command name) (map string_bytes words.entry.now) ≡ Some (rows_of (found_of m))) }
    ensures none { result ≡ Err WordFault.Words → matches (app_of_command name) (map string_bytes words.entry.now) ≡ None }
    ensures cause { IfErr result IsOfWords }
{
    let Ok(command) = command_of(alloc, name) else {
        return Err(WordFault::Memory);
    };
    parse(command, words)
}
