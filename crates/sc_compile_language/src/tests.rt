use crate::{CCompilerKind, CompilerKind, Language};
use std::process::Abort;
use std::test::Fail;

/// Whether a file's language is the one of this name; of no name, whether it has none.
fn is_in(file: &[u8], name: &str) -> bool {
    match Language::from_file_name(file) {
        None => name.is_empty(),
        Some(language) => language.as_str() == name,
    }
}

#[test]
fn a_file_is_known_by_its_last_extension(rt: HostRuntime) {
    assert!(rt; is_in(b"a.c", "c"));
    assert!(rt; is_in(b"/src/v1.2/main.tar.cc", "c++"));
    assert!(rt; is_in(b"\xff.S", "assemblerToPreprocess"));
    assert!(rt; is_in(b".x.rs", "rust"));
}

#[test]
fn a_name_without_a_known_extension_has_no_language(rt: HostRuntime) {
    assert!(rt; is_in(b"c", ""));
    assert!(rt; is_in(b".c", ""));
    assert!(rt; is_in(b"src/.c", ""));
    assert!(rt; is_in(b"src.c/main", ""));
    assert!(rt; is_in(b"main.", ""));
    assert!(rt; is_in(b"", ""));
}

#[test]
fn a_compile_is_counted_by_language_and_compiler(rt: HostRuntime) -> Result<(), Fail> {
    let clang = CompilerKind::C(CCompilerKind::Clang);
    let counted = clang.lang_comp_kind(rt.alloc(), &Language::Cxx)?;
    assert_eq!(rt; counted.as_str(), "c++ [clang]");
    let counted = CompilerKind::Rust.lang_comp_kind(rt.alloc(), &Language::Rust)?;
    assert_eq!(rt; counted.as_str(), "rust");
    assert_eq!(rt; clang.lang_kind(&Language::GenericHeader), "C/C++");
    Ok(())
}
