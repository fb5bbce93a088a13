use sc_entry::{ByteText, GetPathResult};
use sc_main_script::{Script, read_script};
use sc_main_script_words::{put_counters, put_line, put_named, put_number, put_reply, put_token};
use sc_model::{Response, Step};
use sc_stats::ServerStats;
use std::alloc::Global;
use std::process::Abort;
use std::test::Fail;

const GOOD: &[u8] = b"script 1
conns 2
tokens 3
limit 64
level remote rw
hold 0 key1 a\\x20b
fail 0 2
tool /cc 7 gcc
run key1 s126 - e obj=A=B
bytes 1 00fF
ask 0 compile /cc / N=v -- --key key1
ask 0 compile /cc / -- x
read 0 1000
serve 1 2
read 1 57
";

/// How many bytes the second connection sends, how many entries are held, and how many steps are taken.
fn amounts(script: &Script) -> (usize, usize, usize) {
    let mut sent = 0;
    for input in script.inputs.as_slice() {
        sent = input.len();
    }
    let mut held = 0;
    for level in script.levels.as_slice() {
        held = level.holds.len();
    }
    (sent, held, script.steps.len())
}

/// How many steps of serving there are, and how many bytes are to be read.
fn served_and_read(steps: &[Step]) -> (u64, u64) {
    let mut served = 0u64;
    let mut read = 0u64;
    for step in steps {
        match step {
            Step::Serve(number) => served = served.saturating_add(*number),
            Step::Read(_, most) => read = read.saturating_add(*most),
            _ => (),
        }
    }
    (served, read)
}

/// What stands in the script.
fn is_read(rt: &impl Abort, script: &Script) -> Result<(), Fail> {
    let (sent, held, steps) = amounts(script);
    let (served, read) = served_and_read(script.steps.as_slice());
    assert!(rt; script.tokens == 3 && script.limit == 64);
    assert!(rt; sent == 2 && held == 1 && steps == 4);
    assert!(rt; served == 2 && read == 1057);
    Ok(())
}

#[test]
fn ample_read_script(rt: HostRuntime) -> Result<(), Fail> {
    let script = read_script(rt.alloc(), GOOD)?;
    is_read(&rt, &script)
}

#[test]
fn ample_put_token(rt: HostRuntime) -> Result<(), Fail> {
    let alloc = rt.alloc();
    let mut out = Vec::new(alloc);
    put_token(&mut out, b"")?;
    out.push(b' ')?;
    put_token(&mut out, b"-")?;
    out.push(b' ')?;
    put_token(&mut out, b"a b\\\x7f~!")?;
    out.push(b' ')?;
    put_line(&mut out, b"a b\n")?;
    out.push(b' ')?;
    put_number(alloc, &mut out, u64::MAX)?;
    put_named(alloc, &mut out, b"runs", 10)?;
    let wanted = b"- \\x2d a\\x20b\\x5c\\x7f~! a b\\x0a 18446744073709551615runs 10\n";
    assert_eq!(rt; out.as_slice(), wanted.as_slice());
    Ok(())
}

/// Whether these replies are printed so.
fn prints(rt: &impl Abort, alloc: Global, replies: &[Response], wanted: &[u8]) -> Result<(), Fail> {
    let mut out = Vec::new(alloc);
    for reply in replies {
        put_reply(alloc, &mut out, reply)?;
    }
    assert_eq!(rt; out.as_slice(), wanted);
    Ok(())
}

#[test]
fn ample_put_reply(rt: HostRuntime) -> Result<(), Fail> {
    let found = ByteText::from_slice(rt.alloc(), b"/p q")?;
    let reply = [Response::StorageGetPath(GetPathResult::Found(found))];
    prints(&rt, rt.alloc(), &reply, b"path found /p\\x20q\n")
}

#[test]
fn ample_put_counters(rt: HostRuntime) -> Result<(), Fail> {
    let mut stats = ServerStats::new(rt.alloc());
    let mut out = Vec::new(rt.alloc());
    put_counters(rt.alloc(), &mut out, &stats)?;
    assert_eq!(rt; out.len(), 0);
    stats.compile_requests = 1;
    stats.requests_not_compile = 2;
    stats.cache_timeouts = 3;
    stats.compile_fails = 4;
    stats.dist_errors = u64::MAX;
    put_counters(rt.alloc(), &mut out, &stats)?;
    let wanted = b"compile_requests 1
requests_not_compile 2
cache_timeouts 3
compile_fails 4
dist_errors 18446744073709551615
";
    assert_eq!(rt; out.as_slice(), wanted.as_slice());
    Ok(())
}
