//! What is compiled under a plain compile's key.

ghost use Rattle.std.specs.Prelude.{◌≡◌, IfOk};
ghost use Rattle.sc_compile.specs.Commands.{plain_command};
ghost use Rattle.sc_compile.specs.Plain.{plain_key};
ghost use Rattle.sc_compile_traits.specs.Cacheables.{cacheable_if};
ghost use Rattle.sc_compile_traits.specs.Plainly.{plain_answer};

use crate::compilation::Compilation;
use crate::control::Cacheable;
use crate::hashed::{HashAnswer, HashResult};
use sc_compile::{PlainCompiler as PlainWords, plain_outputs_are_named};
use sc_entry::{FileObjectSource, Items, NoMemory, Text};
use sc_model::{Compile, KeyFound, SingleCompileCommand};
use std::alloc::Global;
use std::marker::Model;

/// A plain compile with what its words say of its run. Contracts see it as its request.
#[derive(Drop)]
pub struct PlainCompilation {
    request: Compile,
    outputs: Items<FileObjectSource>,
    locally_preprocessed: bool,
    cacheable: bool,
}

impl Model for PlainCompilation {
    ghost use Rattle.std.specs.Prelude.{◌≡◌};
    ghost use Rattle.sc_compile.specs.Plain.{plain_key};
    ghost use Rattle.sc_model.specs.declared.message.Compile.{Compile};

    ghost Value = { Compile };

    ghost view = { λ p. p.request };

    ghost invariant = { λ p. (p.outputs ≡ (plain_key p.request).outputs) × (p.locally_preprocessed ≡ (plain_key p.request).locally_preprocessed) × (p.cacheable ≡ (plain_key p.request).cacheable) };
}

fn cacheable_if(cacheable: bool) -> Cacheable
    ensures { result ≡ cacheable_if cacheable }
{
    if cacheable {
        Cacheable::Yes
    } else {
        Cacheable::No
    }
}

/// The key of a request, and what is compiled under it. No toolchain is named.
pub(crate) fn plain_answer(
    alloc: Global,
    request: Compile,
) -> Result<HashAnswer<PlainCompilation>, NoMemory>
    ensures { IfOk result (λ a. a ≡ plain_answer request) }
{
    let KeyFound {
        key,
        outputs,
        locally_preprocessed,
        cacheable,
    } = PlainWords::key(alloc, &request)?;
    let compilation = PlainCompilation {
        request,
        outputs,
        locally_preprocessed,
        cacheable,
    };
    Ok(HashAnswer::Found(HashResult {
        key,
        compilation,
        weak_toolchain_key: Text::new(alloc),
    }))
}

impl Compilation for PlainCompilation {
    ghost command = { plain_command };

    ghost cacheable = { λ c. cacheable_if (plain_key c).cacheable };

    ghost is_local = { λ c. (plain_key c).locally_preprocessed };

    ghost outputs = { λ c. (plain_key c).outputs };

    fn generate_compile_commands(
        &self,
        alloc: Global,
    ) -> Result<(SingleCompileCommand, Cacheable), NoMemory> {
        let command = PlainWords::command(alloc, &self.request)?;
        Ok((command, cacheable_if(self.cacheable)))
    }

    fn is_locally_preprocessed(&self) -> bool {
        self.locally_preprocessed
    }

    fn outputs(&self, alloc: Global) -> Result<Vec<FileObjectSource>, NoMemory> {
        plain_outputs_are_named();
        let outputs = self.outputs.as_slice().to_vec(alloc)?;
        Ok(outputs)
    }
}
