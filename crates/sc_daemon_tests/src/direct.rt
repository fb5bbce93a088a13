use crate::scripts::made;
use sc_compile_direct::{CompileAnswer, CompileResult, Compiled, get_cached_or_compile};
use sc_daemon::Daemon;
use sc_entry::{ByteText, Items};
use sc_main_memory::Memory;
use sc_model::{CCompilerKind, Compile, CompilerKind, Language, Task};
use std::alloc::Global;
use std::process::Abort;
use std::test::Fail;

/// Compilers that come to each end on one machine.
const HERE: &[u8] = b"script 1
level remote rw
run key1 0 hi - obj=AB
run key2 1 - no
run-error key3 2 - bad
run-fault key4 lost
key-error key5 3 - -
key-fault key6 none
";

/// Compilers on other machines.
const ELSEWHERE: &[u8] = b"script 1
level remote rw
run key2 0 hi - obj=AB
dist key1 done srv 0 hi - obj=AB
dist key2 other lost
dist key3 http gone
dist key4 large big
";

fn texts(alloc: Global, words: &[&[u8]]) -> Result<Items<ByteText>, Fail> {
    let mut texts = Items::new(alloc);
    for word in words {
        texts.push(ByteText::from_slice(alloc, word)?)?;
    }
    Ok(texts)
}

/// A compile of a file under a key, with one required output.
fn compile(alloc: Global, key: &[u8]) -> Result<Compile, Fail> {
    let exe = ByteText::from_slice(alloc, b"/cc")?;
    let args = texts(alloc, &[b"--key", key, b"--out", b"obj=o", b"--"])?;
    Ok(Compile {
        exe,
        cwd: ByteText::new(alloc),
        args,
        env_vars: Items::new(alloc),
    })
}

fn named(came_to: &CompileResult) -> &str {
    match came_to {
        CompileResult::Error => "error",
        CompileResult::CacheHit(_) => "hit",
        CompileResult::CacheMiss(_, _, _) => "miss",
        CompileResult::NotCached(_, _) => "not cached",
        CompileResult::NotCacheable(_, _) => "not cacheable",
        CompileResult::CompileFailed(_, _) => "failed",
    }
}

/// The answer in a word.
fn word(answer: &CompileAnswer) -> &str {
    match answer {
        CompileAnswer::Done(came_to, _) => named(came_to),
        CompileAnswer::ProcessError(_) => "process",
        CompileAnswer::HttpClientError(_) => "http",
        CompileAnswer::Fault(_) => "fault",
    }
}

/// Whether a compile came to this answer, by so many events.
fn is_answered(compiled: &Compiled, answer: &str, events: usize) -> bool {
    word(&compiled.answer) == answer && compiled.events.len() == events
}

/// What a compile's key is, and its answer, by so many events.
type Case<'a> = (&'a [u8], &'a str, usize);

/// Whether a compile under a key comes to its answer.
fn answers(alloc: Global, daemon: &mut Daemon<Memory>, case: &Case) -> Result<bool, Fail> {
    let task = Task {
        kind: CompilerKind::C(CCompilerKind::Gcc),
        language: Language::C,
    };
    let request = compile(alloc, case.0)?;
    let compiled = get_cached_or_compile(alloc, daemon, request, task)?;
    Ok(is_answered(&compiled, case.1, case.2))
}

fn answers_each(alloc: Global, daemon: &mut Daemon<Memory>, cases: &[Case]) -> Result<bool, Fail> {
    for case in cases {
        if !answers(alloc, daemon, case)? {
            return Ok(false);
        }
    }
    Ok(true)
}

/// Whether compiles over a script's daemon, one after the other, come to their answers.
fn comes_to(alloc: Global, script: &[u8], cases: &[Case]) -> Result<bool, Fail> {
    let made = made(alloc, script)?;
    let mut daemon = Daemon::new(alloc, made.owned)?;
    answers_each(alloc, &mut daemon, cases)
}

#[test]
fn each_end_on_one_machine(rt: HostRuntime) -> Result<(), Fail> {
    let cases = [
        (b"key1".as_slice(), "miss", 7),
        (b"key1", "hit", 4),
        (b"key2", "failed", 5),
        (b"key3", "process", 5),
        (b"key4", "fault", 5),
        (b"key5", "error", 2),
        (b"key6", "fault", 2),
    ];
    assert!(rt; comes_to(rt.alloc(), HERE, &cases)?);
    Ok(())
}

#[test]
fn each_end_elsewhere(rt: HostRuntime) -> Result<(), Fail> {
    let cases = [
        (b"key1".as_slice(), "miss", 6),
        (b"key1", "hit", 4),
        (b"key2", "miss", 8),
        (b"key3", "http", 4),
        (b"key4", "fault", 4),
    ];
    assert!(rt; comes_to(rt.alloc(), ELSEWHERE, &cases)?);
    Ok(())
}
