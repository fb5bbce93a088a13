//! What finds a compile's key.

ghost use Rattle.std.specs.Prelude.{◌≡◌, ℕ, Bool, IfOk, List, Option};
ghost use Rattle.sc_entry.specs.Causes.{IfTold};
ghost use Rattle.sc_compile_language.specs.declared.language.Language.{Language as LanguageType};
ghost use Rattle.sc_model.specs.declared.message.ColorMode.{ColorMode as ColorType};
ghost use Rattle.sc_model.specs.declared.message.Variable.{Variable as VariableType};
ghost use Rattle.sc_compile_traits.specs.declared.control.CacheControl.{CacheControl as ControlType};
ghost use Rattle.sc_compile_traits.specs.declared.hashed.HashAnswer.{HashAnswer as AnswerType};

use crate::compilation::Compilation;
use crate::control::CacheControl;
use crate::hashed::HashAnswer;
use sc_entry::{ByteText, NoMemory};
use sc_model::{ColorMode, Language, Variable};
use std::alloc::Global;

/// A compile whose words were read, which finds its key. A step keeps nothing, so that one that comes again is answered by its
/// arguments alone.
pub trait CompilerHasher {
    /// What is compiled under a key.
    type Compilation: Compilation + Drop;

    /// What its key step answers in a folder, with variables, where the compile may go to another machine or not, under a
    /// control, where it tells that.
    ghost answer: { Self → List ℕ → List VariableType → Bool → ControlType → Option (AnswerType Self.Compilation) };

    /// How its messages are colored.
    ghost color: { Self → ColorType };

    /// What is compiled.
    ghost language: { Self → LanguageType };

    /// How its first output is shown.
    ghost pretty: { Self → List ℕ };

    /// Which lines of standard error are notifications.
    ghost is_note: { Self → List ℕ → Bool };

    /// The key of the compile in a folder, with variables, or the end of a process, or a fault's chain in its place. `may_dist`
    /// says whether the compile may go to another machine.
    fn generate_hash_key(
        &self,
        alloc: Global,
        cwd: &ByteText,
        env_vars: &[Variable],
        may_dist: bool,
        control: CacheControl,
    ) -> Result<HashAnswer<Self::Compilation>, NoMemory>
        ensures { IfOk result (λ a. IfTold (answer self.now cwd.now env_vars.now may_dist control) (λ told. a ≡ told)) };

    /// How its messages are colored.
    fn color_mode(&self) -> ColorMode
        ensures { result ≡ color self.now };

    /// What is compiled.
    fn language(&self) -> Language
        ensures { result ≡ language self.now };

    /// How its first output is shown, or nothing where it has none.
    fn output_pretty(&self, alloc: Global) -> Result<ByteText, NoMemory>
        ensures { IfOk result (λ p. p ≡ pretty self.now) };

    /// Whether a line of standard error, without its line feed, is a notification.
    fn is_notification(&self, line: &[u8]) -> bool
        ensures { result ≡ is_note self.now line.now };
}
