// The words of the command line, and the command that they are.
ghost use Rattle.std.specs.Prelude.{◌≡◌, IfOk, false, map, string_bytes};
ghost use Rattle.std.specs.List.{list_any};
ghost use Rattle.clap.specs.Simple.{app_of, subcommand_rows_of};
ghost use Rattle.clap.specs.declared.builder.command.Command.TheViews.{out-Command as fields_of};
ghost use Rattle.xp_tool.specs.Words.{command_of, command_in, named_of, numbered_of, number_of, grammar_app, numbered_app, is_flag};

use crate::command::ToolCommand;
use clap::error::ErrorKind;
use clap::{Arg, ArgMatches, Command};
use std::alloc::{AllocError, Global};
use xp_text::numbers::{Digits, read_digits};

/// One argument of the program.
pub type Word = String;

/// How many digits a number has at most, behind the name of a command.
pub const NUMBER_DIGITS: usize = 6;

// How the parser of command lines calls a command's number.
const NUMBER: &str = "N";

/// The command that some words are; none where they are no command. No word of a command begins
/// with a hyphen.
pub fn command(alloc: Global, words: &[Word]) -> Result<Option<ToolCommand>, AllocError>
    ensures { IfOk result (λ command. command ≡ command_of words.now) }
{
    if has_flag(words) {
        return Ok(None);
    }
    match grammar(alloc)?.try_get_matches_from(words) {
        Ok(matches) => Ok(met(&matches)),
        Err(error) if error.kind() == ErrorKind::OutOfMemory => Err(AllocError),
        Err(_) => Ok(None),
    }
}

// Whether some word begins with a hyphen.
fn has_flag(words: &[Word]) -> bool
    ensures { result ≡ list_any is_flag (map string_bytes words.now) }
{
    for word in words {
        if is_flag(word) {
            return true;
        }
    }
    false
}

fn is_flag(word: &str) -> bool
    ensures { result ≡ is_flag word.now }
{
    match word.as_bytes() {
        [first, ..] => *first == b'-',
        [] => false,
    }
}

// The commands as subcommands of the program, which has neither flags nor help.
fn grammar<'a>(alloc: Global) -> Result<Command<'a>, AllocError>
    ensures { IfOk result (λ grammar. app_of grammar ≡ grammar_app) }
{
    let program = Command::new(alloc, "xpsim")
        .no_binary_name(true)
        .disable_help_flag(true)
        .disable_help_subcommand(true)
        .subcommand_required(true);
    program
        .subcommand(Command::new(alloc, "replay"))?
        .subcommand(Command::new(alloc, "run"))?
        .subcommand(Command::new(alloc, "dump"))?
        .subcommand(Command::new(alloc, "decode"))?
        .subcommand(numbered_grammar(alloc, "gen")?)?
        .subcommand(numbered_grammar(alloc, "big")?)
}

// A command that takes a number.
fn numbered_grammar<'a>(alloc: Global, name: &'a str) -> Result<Command<'a>, AllocError>
    ensures app { IfOk result (λ grammar. app_of grammar ≡ numbered_app name.now) }
    ensures local { IfOk result (λ grammar. (fields_of grammar).has_globals ≡ false) }
{
    Command::new(alloc, name).arg(Arg::new(alloc, NUMBER).required(true))
}

// The command that was met: its name, and the word of its number where there is one.
fn met(matches: &ArgMatches) -> Option<ToolCommand>
    ensures { result ≡ command_in (subcommand_rows_of matches.now) }
{
    let (name, own) = matches.subcommand()?;
    match own.get_str(NUMBER) {
        Some(word) => numbered(name, number(word)?),
        None => named(name),
    }
}

// The command of a name alone.
fn named(name: &str) -> Option<ToolCommand>
    ensures { result ≡ named_of name.now }
{
    match name {
        "replay" => Some(ToolCommand::Replay),
        "run" => Some(ToolCommand::Run),
        "dump" => Some(ToolCommand::Dump),
        "decode" => Some(ToolCommand::Decode),
        _ => None,
    }
}

// The command of a name and a number.
fn numbered(name: &str, n: u32) -> Option<ToolCommand>
    ensures { result ≡ numbered_of name.now n }
{
    match name {
        "gen" => Some(ToolCommand::Gen { n }),
        "big" => Some(ToolCommand::Big { n }),
        _ => None,
    }
}

// The number that a word spells.
fn number(word: &str) -> Option<u32>
    ensures { result ≡ number_of word.now }
{
    if word.is_empty() || word.len() > NUMBER_DIGITS {
        return None;
    }
    match read_digits(word.as_bytes()) {
        Digits::Number(n) => Some(n as u32),
        Digits::Other | Digits::TooGreat => None,
    }
}
