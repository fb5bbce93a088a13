//! Kinds of compilers, and how a compile is called in statistics.
ghost use Rattle.std.specs.Prelude.{◌≡◌, IfOk};
ghost use Rattle.sc_compile_language.specs.Languages as languages;

use crate::language::Language;
use sc_entry::{NoMemory, Text};
use std::alloc::Global;

/// Which C compiler one is.
#[derive(Clone, Copy, PartialEq, Eq)]
pub enum CCompilerKind {
    Clang,
    Diab,
    Gcc,
    Msvc,
    Nvcc,
    /// CUDA's front end.
    CudaFE,
    Cicc,
    Ptxas,
    Nvhpc,
    TaskingVX,
}

/// What a compiler compiles.
#[derive(Clone, Copy, PartialEq, Eq)]
pub enum CompilerKind {
    /// C, or a language like it.
    C(CCompilerKind),
    Rust,
}

impl CompilerKind {
    /// The kind of language that a compile is counted by.
    pub fn lang_kind(&self, lang: &Language) -> &'static str
        ensures { result.now ≡ languages.lang_kind lang.now }
    {
        match lang {
            Language::Assembler | Language::AssemblerToPreprocess => "Assembler",
            Language::Cuda => "CUDA",
            Language::CudaFE => "CUDA (Device code)",
            Language::Ptx => "PTX",
            Language::Cubin => "CUBIN",
            Language::Rust => "Rust",
            Language::Hip => "HIP",
            _ => "C/C++",
        }
    }

    /// The language and, of one that compiles C, the compiler that a compile is counted by.
    pub fn lang_comp_kind(&self, alloc: Global, lang: &Language) -> Result<Text, NoMemory>
        ensures { IfOk result (λ t. t ≡ languages.lang_comp_kind self.now lang.now) }
    {
        let mut text = String::from_str(alloc, lang.as_str())?;
        text.push_str(self.mark())?;
        Ok(Text::from_string(text))
    }

    /// What stands behind a language that this compiles.
    fn mark(&self) -> &'static str
        ensures { result.now ≡ languages.mark self.now }
    {
        match self {
            CompilerKind::C(CCompilerKind::Clang) => " [clang]",
            CompilerKind::C(CCompilerKind::Diab) => " [diab]",
            CompilerKind::C(CCompilerKind::Gcc) => " [gcc]",
            CompilerKind::C(CCompilerKind::Msvc) => " [msvc]",
            CompilerKind::C(CCompilerKind::Nvcc) => " [nvcc]",
            CompilerKind::C(CCompilerKind::CudaFE) => " [cudafe++]",
            CompilerKind::C(CCompilerKind::Cicc) => " [cicc]",
            CompilerKind::C(CCompilerKind::Ptxas) => " [ptxas]",
            CompilerKind::C(CCompilerKind::Nvhpc) => " [nvhpc]",
            CompilerKind::C(CCompilerKind::TaskingVX) => " [taskingvx]",
            CompilerKind::Rust => "",
        }
    }
}
