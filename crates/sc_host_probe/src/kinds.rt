//! Which compiler a file is, by its name.
ghost use Rattle.std.specs.Prelude.{◌≡◌};
ghost use Rattle.sc_compile_language.specs.Extensions.{file_name};
ghost use Rattle.sc_host_probe.specs.Kinds as kinds;

use memchr::memrchr;
use sc_compile_language::{CCompilerKind, CompilerKind};

/// The last part of a path.
fn file_name(path: &[u8]) -> &[u8]
    ensures { result.now ≡ file_name path.now }
{
    match memrchr(b'/', path) {
        None => path,
        Some(at) => &path[at + 1..],
    }
}

/// Whether `clang` stands somewhere in a name.
fn has_clang(name: &[u8]) -> bool
    ensures { result ≡ kinds.has_clang name.now }
{
    let mut left = name;
    while let [_, rest @ ..] = left {
        if left.starts_with(b"clang") {
            return true;
        }
        left = rest;
    }
    false
}

fn kind_of_name(name: &[u8]) -> CompilerKind
    ensures { result ≡ kinds.kind_of_name name.now }
{
    match name {
        b"rustc" => CompilerKind::Rust,
        b"nvcc" => CompilerKind::C(CCompilerKind::Nvcc),
        _ if has_clang(name) => CompilerKind::C(CCompilerKind::Clang),
        _ => CompilerKind::C(CCompilerKind::Gcc),
    }
}

/// The kind of a compiler, by the last part of its path: `rustc` and `nvcc` are these, a name with `clang` in it is Clang, and
/// any other is GCC.
pub(crate) fn kind_of(path: &[u8]) -> CompilerKind
    ensures { result ≡ kinds.kind_of path.now }
{
    kind_of_name(file_name(path))
}
