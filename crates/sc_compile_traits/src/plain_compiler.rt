//! A plain compiler, read by its words.

ghost use Rattle.std.specs.Prelude.{◌≡◌, Some};
ghost use Rattle.sc_compile_traits.specs.Plainly.{plain_reading, read_as};

use crate::arguments::CompilerArguments;
use crate::compiler::Compiler;
use crate::plain_hasher::PlainHasher;
use crate::requests::request_of;
use sc_compile::PlainCompiler as PlainWords;
use sc_entry::{ByteText, NoMemory};
use sc_model::{Compile, CompilerKind, Parsed, Task, Variable};
use std::alloc::Global;

/// A plain compiler at a path: its words name its key and its outputs.
#[derive(Drop)]
pub struct PlainCompiler {
    pub kind: CompilerKind,
    /// The path at which it is asked for, which its commands run.
    pub executable: ByteText,
}

/// What a request is, by what its words say.
fn read_as(request: Compile, parsed: Parsed) -> CompilerArguments<PlainHasher>
    ensures { result ≡ read_as request parsed }
{
    match parsed {
        Parsed::Started(Task { kind: _, language }) => {
            CompilerArguments::Ok(PlainHasher { request, language })
        }
        Parsed::NotCompile => CompilerArguments::NotCompilation,
        Parsed::CannotCache(why, extra) => CompilerArguments::CannotCache(why, extra),
        Parsed::Unsupported(why) => CompilerArguments::CannotCache(why, None),
    }
}

impl Compiler for PlainCompiler {
    type Hasher = PlainHasher;

    ghost kind = { λ p. p.kind };

    ghost reading = { λ p args cwd env_vars. Some (plain_reading p args cwd env_vars) };

    fn kind(&self) -> CompilerKind {
        self.kind
    }

    fn parse_arguments(
        &self,
        alloc: Global,
        args: &[ByteText],
        cwd: &ByteText,
        env_vars: &[Variable],
    ) -> Result<CompilerArguments<PlainHasher>, NoMemory> {
        let request = request_of(alloc, &self.executable, args, cwd, env_vars)?;
        let parsed = PlainWords::parse(alloc, self.kind, &request)?;
        Ok(read_as(request, parsed))
    }
}
