//! Languages.
ghost use Rattle.std.specs.Prelude.{◌≡◌, codes, option_map};
ghost use Rattle.sc_compile_language.specs.Extensions as extensions;
ghost use Rattle.sc_compile_language.specs.Languages as languages;

use memchr::memrchr;

/// What a source file is written in.
#[derive(Clone, Copy, PartialEq, Eq)]
pub enum Language {
    Assembler,
    /// Assembler that the preprocessor reads first.
    AssemblerToPreprocess,
    C,
    CHeader,
    CPreprocessed,
    Cxx,
    CxxHeader,
    CxxPreprocessed,
    CxxModule,
    /// A header of C or C++.
    GenericHeader,
    ObjectiveC,
    ObjectiveCHeader,
    ObjectiveCPreprocessed,
    ObjectiveCxx,
    ObjectiveCxxHeader,
    ObjectiveCxxPreprocessed,
    Cuda,
    /// What CUDA's front end writes for the device.
    CudaFE,
    Ptx,
    Cubin,
    Rust,
    Hip,
}

/// What stands behind the last byte of this value, if there is one.
fn after_last(mark: u8, text: &[u8]) -> Option<&[u8]>
    ensures { option_map (λ t. t.now) result ≡ extensions.after_last mark text.now }
{
    match memrchr(mark, text) {
        None => None,
        Some(at) => Some(&text[at + 1..]),
    }
}

/// The extension of a file's name: what stands behind its last dot, if that isn't its first byte.
fn extension(path: &[u8]) -> Option<&[u8]>
    ensures { option_map (λ t. t.now) result ≡ extensions.extension path.now }
{
    let name = match after_last(b'/', path) {
        None => path,
        Some(name) => name,
    };
    if name.is_empty() {
        return None;
    }
    after_last(b'.', &name[1..])
}

/// The language of an extension.
fn language_of(extension: &[u8]) -> Option<Language>
    ensures { result ≡ extensions.language_of extension.now }
{
    match extension {
        b"s" => Some(Language::Assembler),
        b"S" | b"sx" => Some(Language::AssemblerToPreprocess),
        b"c" => Some(Language::C),
        b"h" => Some(Language::GenericHeader),
        b"i" => Some(Language::CPreprocessed),
        b"C" | b"cc" | b"cp" | b"cpp" | b"CPP" | b"cxx" | b"c++" => Some(Language::Cxx),
        b"ii" => Some(Language::CxxPreprocessed),
        b"H" | b"hh" | b"hp" | b"hpp" | b"HPP" | b"hxx" | b"h++" | b"tcc" => {
            Some(Language::CxxHeader)
        }
        b"cppm" | b"ixx" => Some(Language::CxxModule),
        b"m" => Some(Language::ObjectiveC),
        b"mi" => Some(Language::ObjectiveCPreprocessed),
        b"M" | b"mm" => Some(Language::ObjectiveCxx),
        b"mii" => Some(Language::ObjectiveCxxPreprocessed),
        b"cu" => Some(Language::Cuda),
        b"ptx" => Some(Language::Ptx),
        b"cubin" => Some(Language::Cubin),
        b"rs" => Some(Language::Rust),
        b"hip" => Some(Language::Hip),
        _ => None,
    }
}

impl Language {
    /// The language of a file, by the extension of its name; none where it has none, or one that isn't known.
    pub fn from_file_name(file: &[u8]) -> Option<Language>
        ensures { result ≡ extensions.language_of_file file.now }
    {
        match extension(file) {
            None => None,
            Some(extension) => language_of(extension),
        }
    }

    /// Its name, as statistics print it.
    pub fn as_str(self) -> &'static str
        ensures { result.now ≡ languages.name self }
    {
        match self {
            Language::Assembler => "assembler",
            Language::AssemblerToPreprocess => "assemblerToPreprocess",
            Language::C => "c",
            Language::CHeader => "cHeader",
            Language::CPreprocessed => "cPreprocessed",
            Language::Cxx => "c++",
            Language::CxxHeader => "c++Header",
            Language::CxxPreprocessed => "c++Preprocessed",
            Language::CxxModule => "c++-module",
            Language::GenericHeader => "c/c++",
            Language::ObjectiveC | Language::ObjectiveCHeader => "objc",
            Language::ObjectiveCPreprocessed => "objcPreprocessed",
            Language::ObjectiveCxx | Language::ObjectiveCxxHeader => "objc++",
            Language::ObjectiveCxxPreprocessed => "objc++Preprocessed",
            Language::Cuda | Language::CudaFE => "cuda",
            Language::Ptx => "ptx",
            Language::Cubin => "cubin",
            Language::Rust => "rust",
            Language::Hip => "hip",
        }
    }

    /// Whether a compiler of C preprocesses it before it compiles.
    pub fn needs_c_preprocessing(self) -> bool
        ensures { result ≡ languages.needs_c_preprocessing self }
    {
        !matches!(
            self,
            Language::Assembler
                | Language::CPreprocessed
                | Language::CxxPreprocessed
                | Language::ObjectiveCPreprocessed
                | Language::ObjectiveCxxPreprocessed
                | Language::Rust
        )
    }

    /// Whether it is a header of C, or of a language like it.
    pub fn is_c_like_header(self) -> bool
        ensures { result ≡ languages.is_c_like_header self }
    {
        matches!(
            self,
            Language::CHeader
                | Language::CxxHeader
                | Language::ObjectiveCHeader
                | Language::ObjectiveCxxHeader
                | Language::GenericHeader
        )
    }

    /// The language of what a preprocessor makes of it; none where there is no such language.
    pub fn to_c_preprocessed_language(self) -> Option<Language>
        ensures { result ≡ languages.preprocessed self }
    {
        match self {
            Language::AssemblerToPreprocess => Some(Language::Assembler),
            Language::C => Some(Language::CPreprocessed),
            Language::Cxx => Some(Language::CxxPreprocessed),
            Language::ObjectiveC => Some(Language::ObjectiveCPreprocessed),
            Language::ObjectiveCxx => Some(Language::ObjectiveCxxPreprocessed),
            _ => None,
        }
    }

    /// The word for it behind `-x` of GCC, from
    /// <https://gcc.gnu.org/onlinedocs/gcc/Overall-Options.html>; none where the compiler decides.
    pub fn to_gcc_arg(self) -> Option<&'static str>
        ensures { option_map (λ t. t.now) result ≡ languages.compiler_arg (codes "cu") self }
    {
        self.to_compiler_arg("cu")
    }

    /// The word for it behind `-x` of Clang, from
    /// <https://github.com/llvm/llvm-project/blob/main/clang/include/clang/Driver/Types.def>; none where the compiler
    /// decides.
    pub fn to_clang_arg(self) -> Option<&'static str>
        ensures { option_map (λ t. t.now) result ≡ languages.compiler_arg (codes "cuda") self }
    {
        self.to_compiler_arg("cuda")
    }

    /// That word where CUDA's is this.
    fn to_compiler_arg(self, cuda: &'static str) -> Option<&'static str>
        ensures { option_map (λ t. t.now) result ≡ languages.compiler_arg cuda.now self }
    {
        match self {
            Language::Assembler => Some("assembler"),
            Language::AssemblerToPreprocess => Some("assembler-with-cpp"),
            Language::C => Some("c"),
            Language::CHeader => Some("c-header"),
            Language::CPreprocessed => Some("cpp-output"),
            Language::Cxx => Some("c++"),
            Language::CxxHeader => Some("c++-header"),
            Language::CxxPreprocessed => Some("c++-cpp-output"),
            Language::CxxModule => Some("c++-module"),
            Language::ObjectiveC => Some("objective-c"),
            Language::ObjectiveCHeader => Some("objective-c-header"),
            Language::ObjectiveCPreprocessed => Some("objective-c-cpp-output"),
            Language::ObjectiveCxx => Some("objective-c++"),
            Language::ObjectiveCxxHeader => Some("objective-c++-header"),
            Language::ObjectiveCxxPreprocessed => Some("objective-c++-cpp-output"),
            Language::Cuda => Some(cuda),
            Language::Hip => Some("hip"),
            Language::GenericHeader
            | Language::CudaFE
            | Language::Ptx
            | Language::Cubin
            | Language::Rust => None,
        }
    }
}
