//! A compile's command, made by a creator.
ghost use Rattle.std.specs.Prelude.{◌≡◌, ◌++◌, false, IfOk, OnOk, option_map};
ghost use Rattle.sc_entry.specs.Causes.{IfTold};
ghost use Rattle.sc_command.specs.Creating.{NewCause};
ghost use Rattle.sc_command.specs.Settings.{fresh_setting, with_folder, with_nothing, with_stderr, with_stdin, with_stdout};
ghost use Rattle.sc_command.specs.declared.setting.StdioMode.TheVariants.{Null, Piped};
ghost use Rattle.sc_command_workshop.specs.Preparing.{IsMade, Keeps, Prepares, SetsUp, Shares, set_up, with_each};

use sc_command::{CommandCreator, NewCommandError, RunCommand, StdioMode};
use sc_compile::SingleCompileCommand;
use sc_entry::NoMemory;
use sc_model::Variable;

/// Sets variables, one after the other.
fn set_variables<C: RunCommand>(made: &mut C, variables: &[Variable]) -> Result<(), NoMemory>
    ensures set { OnOk result (C.setting made.new ≡ option_map (with_each variables.now) (C.setting made.old)) }
    ensures same { (C.arguments made.new ≡ C.arguments made.old) × (C.is_spent made.new ≡ C.is_spent made.old) × (C.plan made.new ≡ C.plan made.old) }
{
    let mut left = variables;
    while let [variable, rest @ ..] = left {
        made.env(&variable.name, &variable.value)?;
        left = rest;
    }
    Ok(())
}

/// Sets what a command runs in: its variables alone, its folder, nothing to read, and both outputs to be collected.
fn set_place<C: RunCommand>(made: &mut C, command: &SingleCompileCommand) -> Result<(), NoMemory>
    ensures set { OnOk result (C.setting made.new ≡ option_map (set_up command.now) (C.setting made.old)) }
    ensures same { (C.arguments made.new ≡ C.arguments made.old) × (C.is_spent made.new ≡ C.is_spent made.old) × (C.plan made.new ≡ C.plan made.old) }
{
    made.env_clear();
    set_variables(made, command.env_vars.as_slice())?;
    made.current_dir(&command.cwd)?;
    made.stdin(StdioMode::Null);
    made.stdout(StdioMode::Piped);
    made.stderr(StdioMode::Piped);
    Ok(())
}

/// Lets the child use make's tokens, where that is asked and can be.
fn share<C: RunCommand>(made: &mut C, shares: bool)
    ensures set { Shares shares (C.setting made.old) (C.setting made.new) }
    ensures same { (C.arguments made.new ≡ C.arguments made.old) × (C.is_spent made.new ≡ C.is_spent made.old) × (C.plan made.new ≡ C.plan made.old) }
{
    if shares {
        made.share_jobserver();
    }
}

/// Gives a new command its words and what it runs in.
fn set_all<C: RunCommand>(made: &mut C, command: &SingleCompileCommand) -> Result<(), NoMemory>
    ensures words { OnOk result (C.arguments made.new ≡ option_map (λ before. before ++ command.now.arguments) (C.arguments made.old)) }
    ensures set { OnOk result (SetsUp command.now (C.setting made.old) (C.setting made.new)) }
    ensures same { (C.is_spent made.new ≡ C.is_spent made.old) × (C.plan made.new ≡ C.plan made.old) }
{
    made.args(command.arguments.as_slice())?;
    set_place(made, command)?;
    share(made, command.share_jobserver);
    Ok(())
}

/// A command of a creator that runs a compile's command, not spawned yet: its program with its arguments, its variables
/// alone, its folder, nothing to read, and both outputs to be collected.
pub fn prepare<K: CommandCreator>(
    creator: &mut K,
    command: &SingleCompileCommand,
) -> Result<K::Cmd, NewCommandError>
where
    K::Cmd: Drop,
    ensures made { IfOk result (λ made. IsMade command.now (K.Cmd.arguments made) (K.Cmd.setting made)) }
    ensures unspent { IfOk result (λ made. K.Cmd.is_spent made ≡ false) }
    ensures first { Prepares (Keeps K.Cmd.plan K.Cmd.arguments command.now.arguments) (K.queue creator.old) result (K.queue creator.new) }
    ensures cause { NewCause K.is_listed (K.fault_count creator.old) (K.fault_count creator.new) result }
{
    let mut made = creator.new_command(&command.executable)?;
    set_all(&mut made, command)?;
    Ok(made)
}
