//! What stands for compilers.

ghost use Rattle.std.specs.Prelude.{◌≡◌, ◌≤◌, ℕ, IfOk, List, Option};
ghost use Rattle.sc_entry.specs.Causes.{IfTold};
ghost use Rattle.sc_model.specs.declared.message.Variable.{Variable as VariableType};
ghost use Rattle.sc_compile_traits.specs.declared.proxy.Proxied.{Proxied as ProxiedType};

use sc_command::CommandCreatorSync;
use sc_entry::{ByteText, NoMemory, Text};
use sc_model::Variable;
use std::alloc::Global;

/// What a proxy runs.
#[derive(Debug, Drop, PartialEq, Eq)]
pub enum Proxied {
    /// A compiler: its path, and when its file was changed.
    Found(ByteText, u64),
    /// None, and why.
    Refused(Text),
}

/// A program that runs a compiler which it picks by folder and variables.
pub trait CompilerProxy {
    /// What it runs in a folder with variables, where it tells that.
    ghost resolved: { Self → List ℕ → List VariableType → Option ProxiedType };

    /// The compiler that it runs in a folder with variables, or why there is none. The creator makes the commands by which it
    /// finds out.
    fn resolve_proxied_executable<T: CommandCreatorSync>(
        &self,
        alloc: Global,
        creator: &mut T,
        cwd: &ByteText,
        env_vars: &[Variable],
    ) -> Result<Proxied, NoMemory>
        ensures answer { IfOk result (λ p. IfTold (resolved self.now cwd.now env_vars.now) (λ told. p ≡ told)) }
        ensures later { T.fault_count creator.old ≤ T.fault_count creator.new };
}
