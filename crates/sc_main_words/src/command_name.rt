//! The word that a command begins with.
ghost use Rattle.sc_main_words.specs.Names.{command_name};
ghost use Rattle.sc_words.specs.Words.{Means};

use sc_words::WordsError;

/// The commands by their first word.
#[derive(Clone, Copy)]
pub enum CommandName {
    Drive,
    Generate,
    Serve,
    Compile,
    Stats,
    Zero,
    Stop,
    DistStatus,
    Warm,
    Dry,
    Help,
    Version,
}

/// The command that begins with a word.
///
/// # Errors
///
/// `Malformed` where none does.
#[tactic(auto, unfolding(crate::specs::Names::command_name))]
pub fn command_name(word: &[u8]) -> Result<CommandName, WordsError>
    ensures { Means (command_name word.now) result }
{
    if word == b"drive".as_slice() {
        return Ok(CommandName::Drive);
    }
    if word == b"generate".as_slice() {
        return Ok(CommandName::Generate);
    }
    if word == b"serve".as_slice() {
        return Ok(CommandName::Serve);
    }
    if word == b"compile".as_slice() {
        return Ok(CommandName::Compile);
    }
    if word == b"stats".as_slice() {
        return Ok(CommandName::Stats);
    }
    if word == b"zero".as_slice() {
        return Ok(CommandName::Zero);
    }
    if word == b"stop".as_slice() {
        return Ok(CommandName::Stop);
    }
    if word == b"dist-status".as_slice() {
        return Ok(CommandName::DistStatus);
    }
    if word == b"warm".as_slice() {
        return Ok(CommandName::Warm);
    }
    if word == b"dry".as_slice() {
        return Ok(CommandName::Dry);
    }
    if word == b"--help".as_slice() {
        return Ok(CommandName::Help);
    }
    if word == b"--version".as_slice() {
        return Ok(CommandName::Version);
    }
    Err(WordsError::Malformed)
}
