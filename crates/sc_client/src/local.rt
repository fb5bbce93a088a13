//! A compile's command that a client runs itself.
ghost use Rattle.std.specs.Prelude.{◌≡◌, ◌≤◌, false, IfOk, OnOk, option_map};
ghost use Rattle.sc_entry.specs.Causes.{IfTold};
ghost use Rattle.sc_command.specs.Children.{IfFault};
ghost use Rattle.sc_command.specs.Creating.{NewCause};
ghost use Rattle.sc_command.specs.declared.refusal.CommandRefusal.TheVariants as refusals;
ghost use Rattle.sc_client.specs.Local.{CameOf, GivesAs, IsBare, IsMade, KeepsPlan, Prepares, Ran, RunCause, RunsOne, Tells, collecting, local_words};
ghost use Rattle.sc_command.specs.Settings.{with_folder};
ghost use Rattle.std.specs.Prelude.{◌++◌};

use crate::client_error::ClientError;
use sc_command::{
    CommandChild, CommandCreator, CommandError, NewCommandError, Output, RunCommand, StdioMode,
};
use sc_compile::PlainCompiler;
use sc_entry::{ByteText, Items, NoMemory};
use sc_model::{Compile, CompilerKind, Parsed};
use std::alloc::Global;

/// The words that a compile's command has: those behind `--` where the plain compiler reads all of them as a compile, else all.
pub(crate) fn local_words(alloc: Global, words: &[ByteText]) -> Result<Items<ByteText>, NoMemory>
    ensures { IfOk result (λ ws. ws ≡ local_words words.now) }
{
    let compile = Compile {
        exe: ByteText::new(alloc),
        cwd: ByteText::new(alloc),
        args: Items::from_vec(words.to_vec(alloc)?),
        env_vars: Items::new(alloc),
    };
    match PlainCompiler::parse(alloc, CompilerKind::Rust, &compile)? {
        Parsed::Started(_) => {
            let command = PlainCompiler::command(alloc, &compile)?;
            Ok(command.arguments)
        }
        Parsed::NotCompile => Ok(compile.args),
        Parsed::CannotCache(_, _) => Ok(compile.args),
        Parsed::Unsupported(_) => Ok(compile.args),
    }
}

/// Lets a command's outputs be collected.
fn collect<C: RunCommand>(made: &mut C, collected: bool)
    ensures set { C.setting made.new ≡ option_map (collecting collected) (C.setting made.old) }
    ensures same { (C.arguments made.new ≡ C.arguments made.old) × (C.is_spent made.new ≡ C.is_spent made.old) × (C.plan made.new ≡ C.plan made.old) }
{
    if collected {
        made.stdout(StdioMode::Piped);
        made.stderr(StdioMode::Piped);
    }
}

/// Gives a new command its words, its folder and its streams.
fn set_up<C: RunCommand>(
    made: &mut C,
    words: &[ByteText],
    folder: &ByteText,
    collected: bool,
) -> Result<(), NoMemory>
    ensures words { OnOk result (C.arguments made.new ≡ option_map (λ before. before ++ words.now) (C.arguments made.old)) }
    ensures set { OnOk result (C.setting made.new ≡ option_map (λ s. collecting collected (with_folder folder.now s)) (C.setting made.old)) }
    ensures same { (C.is_spent made.new ≡ C.is_spent made.old) × (C.plan made.new ≡ C.plan made.old) }
{
    made.args(words)?;
    made.current_dir(folder)?;
    collect(made, collected);
    Ok(())
}

/// A command of a creator, not spawned yet: a program with words, in a folder and in this process's environment. Its streams are
/// this process's, or are to be collected.
fn prepare<T: CommandCreator>(
    creator: &mut T,
    program: &ByteText,
    words: &[ByteText],
    folder: &ByteText,
    collected: bool,
) -> Result<T::Cmd, NewCommandError>
where
    T::Cmd: Drop,
    ensures prepares { Prepares (KeepsPlan T.Cmd.plan) (λ made. IsMade program.now words.now folder.now collected (T.Cmd.arguments made) (T.Cmd.setting made)) (T.queue creator.old) result (T.queue creator.new) }
    ensures unspent { IfOk result (λ made. T.Cmd.is_spent made ≡ false) }
    ensures cause { NewCause T.is_listed (T.fault_count creator.old) (T.fault_count creator.new) result }
{
    let mut made = creator.new_command(program)?;
    set_up(&mut made, words, folder, collected)?;
    Ok(made)
}

/// Waits for a child whose streams are this process's.
fn ending_of<C: CommandChild>(alloc: Global, child: C) -> Result<Output, CommandError<C::Fault>>
    ensures told { IfTold (C.content child) (λ c. GivesAs false c result) }
    ensures fault { IfFault result (λ fault. C.Fault.refusal fault ≡ refusals.WaitFault) }
    ensures bare { IfOk result (λ output. IsBare false output) }
{
    match child.wait() {
        Ok(status) => Ok(Output {
            status,
            stdout: ByteText::new(alloc),
            stderr: ByteText::new(alloc),
        }),
        Err(fault) => Err(CommandError::Fault(fault)),
    }
}

/// Waits until a child has ended.
fn wait_for<C: CommandChild>(
    alloc: Global,
    child: C,
    collected: bool,
) -> Result<Output, CommandError<C::Fault>>
    ensures told { IfTold (C.content child) (λ c. GivesAs collected c result) }
    ensures fault { IfFault result (λ fault. C.Fault.refusal fault ≡ refusals.WaitFault) }
    ensures bare { IfOk result (λ output. IsBare collected output) }
{
    if collected {
        return child.wait_with_output();
    }
    ending_of(alloc, child)
}

/// Spawns a command, and waits until its child has ended.
fn output_of<C: RunCommand + Drop>(
    alloc: Global,
    mut command: C,
    collected: bool,
) -> Result<Output, CommandError<<C::C as CommandChild>::Fault>>
    requires { C.is_spent command ≡ false }
    ensures came { IfTold (C.arguments command) (λ words. CameOf collected (C.gives (C.plan command) words) C.C.content C.C.Fault.refusal result) }
    ensures bare { IfOk result (λ output. IsBare collected output) }
{
    match command.spawn() {
        Ok(child) => wait_for(alloc, child, collected),
        Err(error) => Err(error),
    }
}

/// Books what was refused.
fn booked<T: CommandCreator>(
    creator: &mut T,
    came: Result<Output, CommandError<<<T::Cmd as RunCommand>::C as CommandChild>::Fault>>,
) -> Result<Output, ClientError>
    ensures tells { Tells T.Cmd.C.Fault.refusal came result }
    ensures queue { T.queue creator.new ≡ T.queue creator.old }
    ensures cause { RunCause (T.fault_count creator.old) (T.fault_count creator.new) result }
{
    match came {
        Ok(output) => Ok(output),
        Err(CommandError::NoMemory) => Err(ClientError::NoMemory),
        Err(CommandError::Fault(fault)) => Err(ClientError::Command(creator.book(fault))),
    }
}

/// Runs a program here: with these words, in this folder and in this process's environment. Its streams are this process's, or are
/// collected.
pub(crate) fn run_local<T: CommandCreator>(
    alloc: Global,
    creator: &mut T,
    program: &ByteText,
    words: &[ByteText],
    folder: &ByteText,
    collected: bool,
) -> Result<Output, ClientError>
where
    T::Cmd: Drop,
    ensures ran { RunsOne (KeepsPlan T.Cmd.plan) (Ran T.Cmd.gives T.Cmd.plan T.Cmd.arguments T.Cmd.setting T.Cmd.C.content program.now words.now folder.now collected) (T.queue creator.old) result (T.queue creator.new) }
    ensures later { T.fault_count creator.old ≤ T.fault_count creator.new }
    ensures cause { RunCause (T.fault_count creator.old) (T.fault_count creator.new) result }
{
    let _faults = creator.faults();
    let command = prepare(creator, program, words, folder, collected)?;
    let came = output_of(alloc, command, collected);
    booked(creator, came)
}
