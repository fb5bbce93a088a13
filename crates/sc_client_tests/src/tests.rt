use sc_client::{Outlet, Outlets, filter_escapes, handle_compile_finished};
use sc_entry::{ByteText, Calls, MemSink};
use sc_model::{ColorMode, CompileFinished};
use std::alloc::Global;
use std::process::Abort;
use std::test::Fail;

/// Whether this is left of bytes without their escapes.
fn leaves(alloc: Global, bytes: &[u8], left: &[u8]) -> Result<bool, Fail> {
    let filtered = filter_escapes(alloc, bytes)?;
    Ok(filtered.as_slice() == left)
}

#[test]
fn escapes_go(rt: HostRuntime) -> Result<(), Fail> {
    let cases = [
        (b"\x1b[31mred\x1b[0m".as_slice(), b"red".as_slice()),
        (b"a\x1b[1;38:5 !kb", b"ab"),
        (b"a\x1bDb\x1b_c", b"abc"),
        (b"a\x1b", b"a"),
        (b"a\x1b[", b"a"),
        (b"a\x1b[3;", b"a"),
        (b"a\x1b[3 ", b"a"),
        (b"\x1b\x1b[mx", b"\x1bx"),
        (b"\x1b[3 1mx", b"\x1b[3 1mx"),
        (b"\x1b[\x7fx", b"\x1b[\x7fx"),
        (b"\x1b`x\x1b7", b"\x1b`x\x1b7"),
        (b"", b""),
    ];
    for (bytes, left) in cases {
        assert!(rt; leaves(rt.alloc(), bytes, left)?);
    }
    Ok(())
}

/// A compile that printed a red word and a plain one.
fn finished(
    alloc: Global,
    retcode: Option<i32>,
    signal: Option<i32>,
    color_mode: ColorMode,
) -> Result<CompileFinished, Fail> {
    let stdout = ByteText::from_slice(alloc, b"\x1b[31mred\n")?;
    let stderr = ByteText::from_slice(alloc, b"plain")?;
    Ok(CompileFinished {
        retcode,
        signal,
        stdout,
        stderr,
        color_mode,
    })
}

const TERMINAL: Outlet = Outlet {
    is_terminal: true,
    is_dumb: false,
};

const FILE: Outlet = Outlet {
    is_terminal: false,
    is_dumb: false,
};

const DUMB: Outlet = Outlet {
    is_terminal: true,
    is_dumb: true,
};

/// Whether a compile ends with this status, and this is printed on its first stream; on the second a file gets the plain word.
fn ends(
    alloc: Global,
    finished: &CompileFinished,
    out: Outlet,
    status: i32,
    printed: &[u8],
) -> Result<bool, Fail> {
    let outlets = Outlets { out, err: FILE };
    let mut out = MemSink::new(alloc, Calls::new(alloc));
    let mut err = MemSink::new(alloc, Calls::new(alloc));
    let answer = handle_compile_finished(alloc, finished, &outlets, &mut out, &mut err)?;
    Ok(answer == status && out.as_slice() == printed && err.as_slice() == b"plain".as_slice())
}

#[test]
fn a_retcode_is_the_status(rt: HostRuntime) -> Result<(), Fail> {
    let cases = [
        (3, None, ColorMode::Off, TERMINAL, b"red\n".as_slice()),
        (-1, Some(9), ColorMode::On, FILE, b"\x1b[31mred\n"),
    ];
    for (retcode, signal, mode, outlet, printed) in cases {
        let finished = finished(rt.alloc(), Some(retcode), signal, mode)?;
        assert!(rt; ends(rt.alloc(), &finished, outlet, retcode, printed)?);
    }
    Ok(())
}

#[test]
fn another_end_is_told(rt: HostRuntime) -> Result<(), Fail> {
    let killed = b"\x1b[31mred\nsccache: Compiler killed by signal 9\n".as_slice();
    let unknown = b"red\nsccache: Missing compiler exit status!\n".as_slice();
    let cases = [(Some(9), TERMINAL, -2, killed), (None, DUMB, -3, unknown)];
    for (signal, outlet, status, printed) in cases {
        let finished = finished(rt.alloc(), None, signal, ColorMode::Auto)?;
        assert!(rt; ends(rt.alloc(), &finished, outlet, status, printed)?);
    }
    Ok(())
}
