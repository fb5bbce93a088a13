//! What is compiled under a key.

ghost use Rattle.std.specs.Prelude.{◌≡◌, [], Bool, IfOk, List, true};
ghost use Rattle.sc_compile.specs.OutputNames.{are_outputs};
ghost use Rattle.sc_entry.specs.declared.object.FileObjectSource.{FileObjectSource as SourceType};
ghost use Rattle.sc_model.specs.declared.command.SingleCompileCommand.{SingleCompileCommand as CommandType};
ghost use Rattle.sc_compile_traits.specs.declared.control.Cacheable.{Cacheable as CacheableType};

use crate::control::Cacheable;
use sc_entry::{FileObjectSource, NoMemory};
use sc_model::SingleCompileCommand;
use std::alloc::Global;

/// A compile whose key was found: what is run for it, and what it leaves.
pub trait Compilation {
    /// What is run.
    ghost command: { Self → CommandType };

    /// Whether its run may be stored.
    ghost cacheable: { Self → CacheableType };

    /// Whether its source is preprocessed here.
    ghost is_local: { Self → Bool };

    /// Its outputs.
    ghost outputs: { Self → List SourceType };

    /// What is run, and whether its run may be stored.
    fn generate_compile_commands(
        &self,
        alloc: Global,
    ) -> Result<(SingleCompileCommand, Cacheable), NoMemory>
        ensures { IfOk result (λ r. r ≡ (command self.now, cacheable self.now)) };

    /// Whether the source is preprocessed here.
    fn is_locally_preprocessed(&self) -> bool
        ensures { result ≡ is_local self.now };

    /// The outputs with their paths. They are at most 65,532, with distinct names of 1 to 65,535 bytes, none `stdout` or
    /// `stderr`.
    fn outputs(&self, alloc: Global) -> Result<Vec<FileObjectSource>, NoMemory>
        ensures value { IfOk result (λ os. os.items ≡ outputs self.now) }
        ensures named { IfOk result (λ os. are_outputs [] os.items ≡ true) };
}
