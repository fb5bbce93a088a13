//! The request that a plain compiler reads.

ghost use Rattle.std.specs.Prelude.{◌≡◌, IfOk};

use sc_entry::{ByteText, Items, NoMemory};
use sc_model::{Compile, Variable};
use std::alloc::Global;

/// A request of these words to a compiler at a path, in a folder, with variables.
pub(crate) fn request_of(
    alloc: Global,
    exe: &ByteText,
    args: &[ByteText],
    cwd: &ByteText,
    env_vars: &[Variable],
) -> Result<Compile, NoMemory>
    ensures { IfOk result (λ c. c ≡ record { exe = exe.now; cwd = cwd.now; args = args.now; env_vars = env_vars.now }) }
{
    let args = args.to_vec(alloc)?;
    let env_vars = env_vars.to_vec(alloc)?;
    Ok(Compile {
        exe: exe.try_clone()?,
        cwd: cwd.try_clone()?,
        args: Items::from_vec(args),
        env_vars: Items::from_vec(env_vars),
    })
}
