//! A command as the system takes it.
ghost use Rattle.std.specs.Prelude.{◌≡◌, ◌++◌, ◌↔◌, ℕ, List, [], None, Some, false, bytes_eq, cond, IsTrue, IfOk, OnOk, OnErr, All};
ghost use Rattle.std.specs.Str.{IsUtf8};
ghost use Rattle.std.specs.Process.{command_args, command_program, command_var, command_dir, clears_env, makes_pipe, SameProgramAndArgs, SameEnv, SameDir};
ghost use Rattle.sc_command.specs.Settings.{is_piped};
ghost use Rattle.sc_host.specs.Programs.{Runs, AreTexts, IsNamedFolder, IsTextPair, SystemAnswer, is_jobserver_variable, removed, said};

use sc_command::{Setting, SpawnError, StdioMode, Variables};
use sc_entry::{ByteText, NoMemory};
use std::alloc::Global;
use std::process::{Command, Stdio};

pub(crate) fn is_text(word: &[u8]) -> bool
    ensures { IsTrue result ↔ IsUtf8 word.now }
{
    str::from_utf8(word).is_ok()
}

/// A word of the system.
pub(crate) fn text_of(word: &[u8]) -> &str
    requires { IsUtf8 word.now }
    ensures { result.now ≡ word.now }
{
    str::from_utf8(word).unwrap()
}

fn are_texts(words: &[ByteText]) -> bool
    ensures { IsTrue result ↔ All IsUtf8 words.now }
{
    words.iter().all(|word| is_text(word.as_slice()))
}

/// Adds the arguments.
fn add_words(command: &mut Command, words: &[ByteText]) -> Result<(), NoMemory>
    requires { All IsUtf8 words.now }
    ensures args { OnOk result (command_args command.new ≡ command_args command.old ++ words.now) }
    ensures program { OnOk result (command_program command.new ≡ command_program command.old) }
    ensures env { OnOk result (SameEnv command.old command.new) }
    ensures dir { OnOk result (SameDir command.old command.new) }
{
    for word in words {
        command.arg(text_of(word.as_slice()))?;
    }
    Ok(())
}

fn are_pairs_texts(variables: &Variables) -> bool
    ensures { IsTrue result ↔ All IsTextPair variables.now }
{
    for place in 0..variables.len() {
        let (name, value) = variables.pair_at(place);
        if !is_text(name) {
            return false;
        }
        if !is_text(value) {
            return false;
        }
    }
    true
}

/// Sets a variable.
fn set(command: &mut Command, name: &str, value: &str) -> Result<(), NoMemory>
    ensures set { OnOk result ((k : List ℕ) → command_var command.new k ≡ cond (bytes_eq name.now k) (Some (Some value.now)) (command_var command.old k)) }
    ensures call { OnOk result (SameProgramAndArgs command.old command.new) }
    ensures clears { OnOk result (clears_env command.new ≡ clears_env command.old) }
    ensures dir { OnOk result (SameDir command.old command.new) }
{
    command.env(name, value)?;
    Ok(())
}

/// Sets the variables.
fn set_variables(command: &mut Command, variables: &Variables) -> Result<(), NoMemory>
    requires { All IsTextPair variables.now }
    ensures set { OnOk result ((name : List ℕ) → command_var command.new name ≡ said name (command_var command.old name) variables.now) }
    ensures call { OnOk result (SameProgramAndArgs command.old command.new) }
    ensures clears { OnOk result (clears_env command.new ≡ clears_env command.old) }
    ensures dir { OnOk result (SameDir command.old command.new) }
{
    for place in 0..variables.len() {
        let (name, value) = variables.pair_at(place);
        set(command, text_of(name), text_of(value))?;
    }
    Ok(())
}

/// Takes a variable away from what the child gets.
fn remove(command: &mut Command, name: &str) -> Result<(), NoMemory>
    ensures removed { OnOk result ((k : List ℕ) → command_var command.new k ≡ cond (bytes_eq k name.now) (removed (clears_env command.old)) (command_var command.old k)) }
    ensures call { OnOk result (SameProgramAndArgs command.old command.new) }
    ensures clears { OnOk result (clears_env command.new ≡ clears_env command.old) }
    ensures dir { OnOk result (SameDir command.old command.new) }
{
    command.env_remove(name)?;
    Ok(())
}

/// Takes away the variables by which make and cargo hand their own tokens down.
fn remove_jobserver(command: &mut Command) -> Result<(), NoMemory>
    ensures removed { OnOk result ((k : List ℕ) → command_var command.new k ≡ cond (is_jobserver_variable k) (removed (clears_env command.old)) (command_var command.old k)) }
    ensures call { OnOk result (SameProgramAndArgs command.old command.new) }
    ensures clears { OnOk result (clears_env command.new ≡ clears_env command.old) }
    ensures dir { OnOk result (SameDir command.old command.new) }
{
    remove(command, "CARGO_MAKEFLAGS")?;
    remove(command, "MFLAGS")?;
    remove(command, "MAKEFLAGS")?;
    Ok(())
}

/// Forgets the environment of this process, where that is asked.
fn clear_where(command: &mut Command, clears: bool)
    requires inherits { clears_env command.old ≡ false }
    requires vars { (k : List ℕ) → command_var command.old k ≡ None }
    ensures clears { clears_env command.new ≡ clears }
    ensures vars { (k : List ℕ) → command_var command.new k ≡ None }
    ensures call { SameProgramAndArgs command.old command.new }
    ensures dir { SameDir command.old command.new }
{
    if clears {
        command.env_clear();
    }
}

/// Sets where the child runs.
fn set_folder(command: &mut Command, folder: &Option<ByteText>) -> Result<(), NoMemory>
    requires named { IsNamedFolder folder.now }
    requires none { command_dir command.old ≡ None }
    ensures dir { OnOk result (command_dir command.new ≡ folder.now) }
    ensures call { OnOk result (SameProgramAndArgs command.old command.new) }
    ensures env { OnOk result (SameEnv command.old command.new) }
{
    if let Some(folder) = folder {
        command.current_dir(text_of(folder.as_slice()))?;
    }
    Ok(())
}

/// The stream of a child.
fn stdio(mode: StdioMode) -> Stdio
    ensures { makes_pipe result ≡ is_piped mode }
{
    match mode {
        StdioMode::Inherit => Stdio::inherit(),
        StdioMode::Null => Stdio::null(),
        StdioMode::Piped => Stdio::piped(),
    }
}

/// Connects the streams.
fn set_streams(command: &mut Command, setting: &Setting)
    ensures call { SameProgramAndArgs command.old command.new }
    ensures env { SameEnv command.old command.new }
    ensures dir { SameDir command.old command.new }
{
    command.stdin(stdio(setting.stdin));
    command.stdout(stdio(setting.stdout));
    command.stderr(stdio(setting.stderr));
}

fn is_named_folder(folder: &Option<ByteText>) -> bool
    ensures { IsTrue result ↔ IsNamedFolder folder.now }
{
    match folder {
        Some(folder) => is_text(folder.as_slice()),
        None => true,
    }
}

fn are_all_texts(setting: &Setting, words: &[ByteText]) -> bool
    ensures { IsTrue result ↔ AreTexts setting.now words.now }
{
    if !is_text(setting.program.as_slice()) {
        return false;
    }
    if !are_texts(words) {
        return false;
    }
    if !are_pairs_texts(&setting.variables) {
        return false;
    }
    is_named_folder(&setting.folder)
}

/// The command, all of whose words are UTF-8.
fn built(alloc: Global, setting: &Setting, words: &[ByteText]) -> Result<Command, NoMemory>
    requires { AreTexts setting.now words.now }
    ensures { IfOk result (λ command. Runs setting.now words.now command) }
{
    let mut command = Command::new(alloc, text_of(setting.program.as_slice()))?;
    add_words(&mut command, words)?;
    clear_where(&mut command, setting.clears);
    set_variables(&mut command, &setting.variables)?;
    remove_jobserver(&mut command)?;
    set_folder(&mut command, &setting.folder)?;
    set_streams(&mut command, setting);
    Ok(command)
}

/// The command as the system takes it, without the variables of make's and cargo's tokens. A word that isn't UTF-8 is
/// refused.
pub(crate) fn system_command(
    alloc: Global,
    setting: &Setting,
    words: &[ByteText],
) -> Result<Command, SpawnError>
    ensures { SystemAnswer setting.now words.now result }
{
    if !are_all_texts(setting, words) {
        return Err(SpawnError::SpawnFault);
    }
    match built(alloc, setting, words) {
        Ok(command) => Ok(command),
        Err(NoMemory) => Err(SpawnError::NoMemory),
    }
}
