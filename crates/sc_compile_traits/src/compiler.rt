//! What reads a compile's words.

ghost use Rattle.std.specs.Prelude.{◌≡◌, ℕ, IfOk, List, Option};
ghost use Rattle.sc_entry.specs.Causes.{IfTold};
ghost use Rattle.sc_compile_language.specs.declared.compiler_kind.CompilerKind.{CompilerKind as KindType};
ghost use Rattle.sc_model.specs.declared.message.Variable.{Variable as VariableType};
ghost use Rattle.sc_compile_traits.specs.declared.arguments.CompilerArguments.{CompilerArguments as ArgumentsType};

use crate::arguments::CompilerArguments;
use crate::hasher::CompilerHasher;
use sc_entry::{ByteText, NoMemory};
use sc_model::{CompilerKind, Variable};
use std::alloc::Global;

/// A compiler that was found. It has no faults.
pub trait Compiler {
    /// What finds the key of a compile that it has read.
    type Hasher: CompilerHasher + Drop;

    /// Which compiler it is.
    ghost kind: { Self → KindType };

    /// What it reads from words, in a folder, with variables, where it tells that.
    ghost reading: { Self → List (List ℕ) → List ℕ → List VariableType → Option (ArgumentsType Self.Hasher) };

    /// Which compiler it is.
    fn kind(&self) -> CompilerKind
        ensures { result ≡ kind self.now };

    /// What a compile is, by its words, the folder that it is asked for in, and its variables.
    fn parse_arguments(
        &self,
        alloc: Global,
        args: &[ByteText],
        cwd: &ByteText,
        env_vars: &[Variable],
    ) -> Result<CompilerArguments<Self::Hasher>, NoMemory>
        ensures { IfOk result (λ a. IfTold (reading self.now args.now cwd.now env_vars.now) (λ told. a ≡ told)) };
}
