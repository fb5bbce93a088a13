//! The command that words are.
ghost use Rattle.std.specs.Prelude.{◌≡◌, [], IfOk};
ghost use Rattle.sc_words.specs.Words.{Means, Reads};
ghost use Rattle.sc_main_words.specs.Commands.{IsWithinLimits, all_words, command_of, command_words, compile_command, dist_status_command, dry_command, generate_command, numbers_onto, serve_command, stats_command, stop_command, zero_command};
ghost use Rattle.sc_main_words.specs.Parses.{Parses};

use crate::address::address;
use crate::command::Command;
use crate::command_name::{CommandName, command_name};
use crate::refusal::WordsRefusal;
use sc_entry::{ByteText, Items};
use sc_main_script_words::{number, number_within};
use sc_words::{Words, WordsError};
use std::alloc::Global;

/// Copies of all words that are left.
fn all_words(alloc: Global, words: &mut Words<'_>) -> Result<Items<ByteText>, WordsError>
    ensures { Reads (all_words words.old) result words.new }
{
    let mut items = Items::new(alloc);
    while let Some(word) = words.next() {
        items.push(word.try_clone()?)?;
    }
    Ok(items)
}

/// The numbers that all words that are left are.
fn numbers(alloc: Global, words: &mut Words<'_>) -> Result<Items<u64>, WordsError>
    ensures { Reads (numbers_onto [] words.old) result words.new }
{
    let mut items = Items::new(alloc);
    while let Some(word) = words.next() {
        items.push(number(word.as_slice())?)?;
    }
    Ok(items)
}

#[tactic(auto, unfolding(crate::specs::Commands::generate_command))]
fn generate(words: &mut Words<'_>) -> Result<Command, WordsError>
    ensures read { Reads (generate_command words.old) result words.new }
    ensures limits { IfOk result IsWithinLimits }
{
    let number = number_within(1, 2000, words.word()?.as_slice())?;
    Ok(Command::Generate(number))
}

#[tactic(auto, unfolding(crate::specs::Commands::serve_command))]
fn serve(alloc: Global, words: &mut Words<'_>) -> Result<Command, WordsError>
    ensures read { Reads (serve_command words.old) result words.new }
    ensures limits { IfOk result IsWithinLimits }
{
    let addr = address(alloc, words.word()?.as_slice())?;
    let dir = words.word()?.try_clone()?;
    let bytes = number(words.word()?.as_slice())?;
    let tokens = number_within(1, 65535, words.word()?.as_slice())?;
    Ok(Command::Serve {
        addr,
        dir,
        bytes,
        tokens,
    })
}

#[tactic(auto, unfolding(crate::specs::Commands::compile_command))]
fn compile(alloc: Global, words: &mut Words<'_>) -> Result<Command, WordsError>
    ensures read { Reads (compile_command words.old) result words.new }
    ensures limits { IfOk result IsWithinLimits }
{
    let addr = address(alloc, words.word()?.as_slice())?;
    let exe = words.word()?.try_clone()?;
    let words = all_words(alloc, words)?;
    Ok(Command::Compile { addr, exe, words })
}

#[tactic(auto, unfolding(crate::specs::Commands::stats_command))]
fn stats(alloc: Global, words: &mut Words<'_>) -> Result<Command, WordsError>
    ensures read { Reads (stats_command words.old) result words.new }
    ensures limits { IfOk result IsWithinLimits }
{
    let addr = address(alloc, words.word()?.as_slice())?;
    let advanced = words.take(b"--advanced");
    let json = words.take(b"--json");
    Ok(Command::Stats {
        addr,
        advanced,
        json,
    })
}

#[tactic(auto, unfolding(crate::specs::Commands::zero_command))]
fn zero(alloc: Global, words: &mut Words<'_>) -> Result<Command, WordsError>
    ensures read { Reads (zero_command words.old) result words.new }
    ensures limits { IfOk result IsWithinLimits }
{
    let addr = address(alloc, words.word()?.as_slice())?;
    Ok(Command::Zero { addr })
}

#[tactic(auto, unfolding(crate::specs::Commands::stop_command))]
fn stop(alloc: Global, words: &mut Words<'_>) -> Result<Command, WordsError>
    ensures read { Reads (stop_command words.old) result words.new }
    ensures limits { IfOk result IsWithinLimits }
{
    let addr = address(alloc, words.word()?.as_slice())?;
    Ok(Command::Stop { addr })
}

#[tactic(auto, unfolding(crate::specs::Commands::dist_status_command))]
fn dist_status(alloc: Global, words: &mut Words<'_>) -> Result<Command, WordsError>
    ensures read { Reads (dist_status_command words.old) result words.new }
    ensures limits { IfOk result IsWithinLimits }
{
    let addr = address(alloc, words.word()?.as_slice())?;
    Ok(Command::DistStatus { addr })
}

#[tactic(auto, unfolding(crate::specs::Commands::dry_command))]
fn dry(alloc: Global, words: &mut Words<'_>) -> Result<Command, WordsError>
    ensures read { Reads (dry_command words.old) result words.new }
    ensures limits { IfOk result IsWithinLimits }
{
    let capacities = numbers(alloc, words)?;
    Ok(Command::Dry(capacities))
}

/// The command of a name, with the words that it needs.
#[tactic(auto, unfolding(crate::specs::Commands::command_words))]
fn command_words(
    alloc: Global,
    name: CommandName,
    words: &mut Words<'_>,
) -> Result<Command, WordsError>
    ensures read { Reads (command_words name words.old) result words.new }
    ensures limits { IfOk result IsWithinLimits }
{
    match name {
        CommandName::Drive => Ok(Command::Drive),
        CommandName::Generate => generate(words),
        CommandName::Serve => serve(alloc, words),
        CommandName::Compile => compile(alloc, words),
        CommandName::Stats => stats(alloc, words),
        CommandName::Zero => zero(alloc, words),
        CommandName::Stop => stop(alloc, words),
        CommandName::DistStatus => dist_status(alloc, words),
        CommandName::Warm => Ok(Command::Warm),
        CommandName::Dry => dry(alloc, words),
        CommandName::Help => Ok(Command::Help),
        CommandName::Version => Ok(Command::Version),
    }
}

/// The command that all the words are.
#[tactic(auto, unfolding(crate::specs::Commands::command_of))]
fn command(alloc: Global, words: &mut Words<'_>) -> Result<Command, WordsError>
    ensures read { Means (command_of words.old) result }
    ensures limits { IfOk result IsWithinLimits }
{
    let name = command_name(words.word()?.as_slice())?;
    let command = command_words(alloc, name, words)?;
    match words.next() {
        None => Ok(command),
        Some(_) => Err(WordsError::Malformed),
    }
}

/// The command that the words behind the program's name are. Words that aren't UTF-8 are good as a folder, a compiler and a
/// compiler's words, and nowhere else. A script's number is 1 to 2,000, and a server's tokens are 1 to 65,535.
///
/// # Errors
///
/// `Usage` exactly where the words are no command, and `NoMemory` where memory ran out.
pub fn parse_words(alloc: Global, words: &[ByteText]) -> Result<Command, WordsRefusal>
    ensures read { Parses (command_of words.now) result }
    ensures limits { IfOk result IsWithinLimits }
{
    let mut words = Words::new(words);
    match command(alloc, &mut words) {
        Ok(command) => Ok(command),
        Err(WordsError::Malformed) => Err(WordsRefusal::Usage),
        Err(WordsError::NoMemory) => Err(WordsRefusal::NoMemory),
    }
}
