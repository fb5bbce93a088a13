//! A compile's begin and its key step, by compilers of any kind.

ghost use Rattle.std.specs.Prelude.{◌≡◌, IfOk, true};
ghost use Rattle.sc_entry.specs.Causes.{IfTold};
ghost use Rattle.sc_compile_traits.specs.Cacheables.{is_cacheable};
ghost use Rattle.sc_compile_traits.specs.declared.hashed.HashAnswer.TheVariants.{Found};
ghost use Rattle.sc_compile_traits.specs.Steps.{are_named, command_of, hasher_of, parsed_as, step_as};

use crate::arguments::CompilerArguments;
use crate::compilation::Compilation;
use crate::compiler::Compiler;
use crate::control::{CacheControl, Cacheable};
use crate::hashed::{HashAnswer, HashResult};
use crate::hasher::CompilerHasher;
use sc_entry::{Items, NoMemory};
use sc_model::{Compile, CompilerKind, KeyFound, KeyStep, Parsed, SingleCompileCommand, Task};
use std::alloc::Global;

fn is_cacheable(cacheable: Cacheable) -> bool
    ensures { result ≡ is_cacheable cacheable }
{
    match cacheable {
        Cacheable::Yes => true,
        Cacheable::No => false,
    }
}

fn parsed_by<H: CompilerHasher>(
    kind: CompilerKind,
    arguments: CompilerArguments<H>,
) -> (Parsed, Option<H>)
    ensures parsed { result.0 ≡ parsed_as kind H.language arguments }
    ensures hasher { result.1 ≡ hasher_of arguments }
{
    match arguments {
        CompilerArguments::Ok(hasher) => {
            let language = hasher.language();
            (Parsed::Started(Task { kind, language }), Some(hasher))
        }
        CompilerArguments::CannotCache(why, extra) => (Parsed::CannotCache(why, extra), None),
        CompilerArguments::NotCompilation => (Parsed::NotCompile, None),
    }
}

/// What a request is by a compiler, and what finds its key where it is a compile that can be cached.
pub fn begin_by<C: Compiler>(
    alloc: Global,
    compiler: &C,
    request: &Compile,
) -> Result<(Parsed, Option<C::Hasher>), NoMemory>
    ensures parsed { IfOk result (λ r. IfTold (C.reading compiler.now request.now.args request.now.cwd request.now.env_vars) (λ told. r.0 ≡ parsed_as (C.kind compiler.now) C.Hasher.language told)) }
    ensures hasher { IfOk result (λ r. IfTold (C.reading compiler.now request.now.args request.now.cwd request.now.env_vars) (λ told. r.1 ≡ hasher_of told)) }
{
    let args = request.args.as_slice();
    let env_vars = request.env_vars.as_slice();
    let arguments = compiler.parse_arguments(alloc, args, &request.cwd, env_vars)?;
    Ok(parsed_by(compiler.kind(), arguments))
}

/// What a key step tells of a key that was found, and what is run for it.
fn found_by<C: Compilation + Drop>(
    alloc: Global,
    hashed: HashResult<C>,
) -> Result<(KeyStep, Option<SingleCompileCommand>), NoMemory>
    ensures step { IfOk result (λ r. r.0 ≡ step_as C.outputs C.is_local C.cacheable (Found hashed)) }
    ensures command { IfOk result (λ r. r.1 ≡ command_of C.command (Found hashed)) }
    ensures named { IfOk result (λ r. are_named r.0 ≡ true) }
{
    let outputs = hashed.compilation.outputs(alloc)?;
    let locally_preprocessed = hashed.compilation.is_locally_preprocessed();
    let (command, cacheable) = hashed.compilation.generate_compile_commands(alloc)?;
    let found = KeyFound {
        key: hashed.key,
        outputs: Items::from_vec(outputs),
        locally_preprocessed,
        cacheable: is_cacheable(cacheable),
    };
    Ok((KeyStep::Key(found), Some(command)))
}

fn step_by<C: Compilation + Drop>(
    alloc: Global,
    answer: HashAnswer<C>,
) -> Result<(KeyStep, Option<SingleCompileCommand>), NoMemory>
    ensures step { IfOk result (λ r. r.0 ≡ step_as C.outputs C.is_local C.cacheable answer) }
    ensures command { IfOk result (λ r. r.1 ≡ command_of C.command answer) }
    ensures named { IfOk result (λ r. are_named r.0 ≡ true) }
{
    match answer {
        HashAnswer::Found(hashed) => found_by(alloc, hashed),
        HashAnswer::ProcessError(output) => Ok((KeyStep::ProcessError(output), None)),
        HashAnswer::Fault(chain) => Ok((KeyStep::Fault(chain), None)),
    }
}

/// What a request's key step tells by its hasher under a control, and what is run where a key was found. The outputs of that are
/// at most 65,532, with distinct names of 1 to 65,535 bytes, none `stdout` or `stderr`.
pub fn key_step_by<H: CompilerHasher>(
    alloc: Global,
    hasher: &H,
    request: &Compile,
    may_dist: bool,
    control: CacheControl,
) -> Result<(KeyStep, Option<SingleCompileCommand>), NoMemory>
    ensures step { IfOk result (λ r. IfTold (H.answer hasher.now request.now.cwd request.now.env_vars may_dist control) (λ told. r.0 ≡ step_as H.Compilation.outputs H.Compilation.is_local H.Compilation.cacheable told)) }
    ensures command { IfOk result (λ r. IfTold (H.answer hasher.now request.now.cwd request.now.env_vars may_dist control) (λ told. r.1 ≡ command_of H.Compilation.command told)) }
    ensures named { IfOk result (λ r. are_named r.0 ≡ true) }
{
    let env_vars = request.env_vars.as_slice();
    let answer = hasher.generate_hash_key(alloc, &request.cwd, env_vars, may_dist, control)?;
    step_by(alloc, answer)
}
