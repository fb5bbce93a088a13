//! What finds a plain compile's key.

ghost use Rattle.std.specs.Prelude.{◌≡◌, Some};
ghost use Rattle.sc_compile.specs.Plain.{plain_pretty};
ghost use Rattle.sc_model.specs.Notes as notes;
ghost use Rattle.sc_model.specs.declared.message.ColorMode.TheVariants.{Auto};
ghost use Rattle.sc_compile_traits.specs.Plainly.{asked_in, plain_answer};

use crate::control::CacheControl;
use crate::hashed::HashAnswer;
use crate::hasher::CompilerHasher;
use crate::plain_compilation::{PlainCompilation, plain_answer};
use crate::requests::request_of;
use sc_compile::PlainCompiler as PlainWords;
use sc_entry::{ByteText, NoMemory};
use sc_model::{ColorMode, Compile, Language, Variable};
use std::alloc::Global;

/// A compile that a plain compiler has read: its request, and what it compiles.
#[derive(Drop)]
pub struct PlainHasher {
    pub(crate) request: Compile,
    pub(crate) language: Language,
}

impl CompilerHasher for PlainHasher {
    type Compilation = PlainCompilation;

    ghost answer = { λ h cwd env_vars may_dist control. Some (plain_answer (asked_in h.request cwd env_vars)) };

    ghost color = { λ h. Auto };

    ghost language = { λ h. h.language };

    ghost pretty = { λ h. plain_pretty h.request };

    ghost is_note = { λ h line. notes.is_note line };

    fn generate_hash_key(
        &self,
        alloc: Global,
        cwd: &ByteText,
        env_vars: &[Variable],
        _may_dist: bool,
        _control: CacheControl,
    ) -> Result<HashAnswer<PlainCompilation>, NoMemory> {
        let args = self.request.args.as_slice();
        let request = request_of(alloc, &self.request.exe, args, cwd, env_vars)?;
        plain_answer(alloc, request)
    }

    fn color_mode(&self) -> ColorMode {
        ColorMode::Auto
    }

    fn language(&self) -> Language {
        self.language
    }

    fn output_pretty(&self, alloc: Global) -> Result<ByteText, NoMemory> {
        PlainWords::pretty(alloc, &self.request)
    }

    fn is_notification(&self, line: &[u8]) -> bool {
        PlainWords::is_notification(line)
    }
}
