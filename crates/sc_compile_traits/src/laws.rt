//! What holds of every plain compiler.

ghost use Rattle.std.specs.Prelude.{◌≡◌, ℕ, List, Some};
ghost use Rattle.sc_compile.specs.Commands.{plain_command};
ghost use Rattle.sc_compile.specs.Plain.{plain_key, plain_parsed};
ghost use Rattle.sc_model.specs.declared.event.KeyStep.TheVariants.{Key};
ghost use Rattle.sc_model.specs.declared.message.Compile.{Compile};
ghost use Rattle.sc_model.specs.declared.message.Variable.{Variable};
ghost use Rattle.sc_compile_traits.specs.Cacheables.{cacheable_if};
ghost use Rattle.sc_compile_traits.specs.Plainly.{asked_of, plain_answer, plain_reading};
ghost use Rattle.sc_compile_traits.specs.Steps.{command_of, parsed_as, step_as};
ghost use Rattle.sc_compile_traits.specs.declared.plain_compiler.PlainCompiler.{PlainCompiler};
ghost use Rattle.sc_compile_traits.specs.declared.plain_hasher.PlainHasher.{PlainHasher};

/// A compile by a plain compiler through these traits tells what its words say: its beginning what a plain compiler of its kind
/// reads, its key step the key that the words name, and what is run is the plain command.
pub fn plain_compilers_read_plainly()
    ensures parsed { (p : PlainCompiler) (args : List (List ℕ)) (cwd : List ℕ) (env_vars : List Variable) → parsed_as p.kind (λ (h : PlainHasher). h.language) (plain_reading p args cwd env_vars) ≡ plain_parsed p.kind (asked_of p args cwd env_vars) }
    ensures step { (c : Compile) → step_as (λ (c : Compile). (plain_key c).outputs) (λ c. (plain_key c).locally_preprocessed) (λ c. cacheable_if (plain_key c).cacheable) (plain_answer c) ≡ Key (plain_key c) }
    ensures command { (c : Compile) → command_of plain_command (plain_answer c) ≡ Some (plain_command c) }
{}
