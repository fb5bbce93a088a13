use crate::{CacheControl, CompilerHasher, PlainCompiler, PlainHasher, begin_by, key_step_by};
use sc_entry::{ByteText, Items};
use sc_model::{
    CCompilerKind, Compile, CompilerKind, KeyFound, KeyStep, Parsed, SingleCompileCommand, Variable,
};
use std::alloc::Global;
use std::process::Abort;
use std::test::Fail;

/// The words of a compile under the key `k`.
const WORDS: [&[u8]; 7] = [b"--key", b"k", b"--out", b"obj=a.o", b"--", b"-c", b"a.c"];

/// A compile by `/usr/bin/cc` in `/src`.
fn compile(alloc: Global, words: &[&[u8]]) -> Result<Compile, Fail> {
    let mut args = Items::new(alloc);
    for word in words {
        args.push(ByteText::from_slice(alloc, word)?)?;
    }
    let env_vars: Items<Variable> = Items::new(alloc);
    Ok(Compile {
        exe: ByteText::from_slice(alloc, b"/usr/bin/cc")?,
        cwd: ByteText::from_slice(alloc, b"/src")?,
        args,
        env_vars,
    })
}

/// What `gcc` reads from these words.
fn begun(alloc: Global, request: &Compile) -> Result<(Parsed, Option<PlainHasher>), Fail> {
    let compiler = PlainCompiler {
        kind: CompilerKind::C(CCompilerKind::Gcc),
        executable: ByteText::from_slice(alloc, b"/usr/bin/cc")?,
    };
    Ok(begin_by(alloc, &compiler, request)?)
}

/// The key that was found and the command that is run under it.
fn keyed(
    alloc: Global,
    hasher: &PlainHasher,
    request: &Compile,
) -> Result<Option<(KeyFound, SingleCompileCommand)>, Fail> {
    let (step, command) = key_step_by(alloc, hasher, request, false, CacheControl::Default)?;
    let KeyStep::Key(found) = step else {
        return Ok(None);
    };
    let Some(command) = command else {
        return Ok(None);
    };
    Ok(Some((found, command)))
}

#[test]
fn the_words_of_a_plain_compile_name_its_key(rt: HostRuntime) -> Result<(), Fail> {
    let alloc = rt.alloc();
    let request = compile(alloc, &WORDS)?;
    let (parsed, hasher) = begun(alloc, &request)?;
    assert!(rt; matches!(parsed, Parsed::Started(_)));
    assert!(rt; hasher.is_some());
    if let Some(hasher) = hasher {
        assert_eq!(rt; hasher.output_pretty(alloc)?.as_slice(), b"a.o".as_slice());
        let keyed = keyed(alloc, &hasher, &request)?;
        assert!(rt; keyed.is_some());
        if let Some((found, command)) = keyed {
            assert_eq!(rt; found.key.as_str(), "k");
            assert_eq!(rt; found.outputs.as_slice().len(), 1);
            assert_eq!(rt; command.executable.as_slice(), b"/usr/bin/cc".as_slice());
        }
    }
    Ok(())
}

#[test]
fn words_without_a_key_are_no_compile_that_is_cached(rt: HostRuntime) -> Result<(), Fail> {
    let request = compile(rt.alloc(), &[b"--key"])?;
    let (parsed, hasher) = begun(rt.alloc(), &request)?;
    assert!(rt; !matches!(parsed, Parsed::Started(_)));
    assert!(rt; hasher.is_none());
    Ok(())
}
