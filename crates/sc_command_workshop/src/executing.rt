//! A command that is spawned and waited for.
ghost use Rattle.std.specs.Prelude.{◌≡◌, false};
ghost use Rattle.sc_entry.specs.Causes.{IfTold};
ghost use Rattle.sc_command_workshop.specs.Executing.{CameOf};

use sc_command::{CommandChild, CommandError, Output, RunCommand};

/// Spawns a command, waits until its child has ended, and gives what it wrote.
pub(crate) fn output_of<C: RunCommand + Drop>(
    mut command: C,
) -> Result<Output, CommandError<<C::C as CommandChild>::Fault>>
    requires { C.is_spent command ≡ false }
    ensures { IfTold (C.arguments command) (λ words. CameOf (C.gives (C.plan command) words) C.C.content C.C.Fault.refusal result) }
{
    match command.spawn() {
        Ok(child) => child.wait_with_output(),
        Err(error) => Err(error),
    }
}
