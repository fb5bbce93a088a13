use crate::read_warm;
use sc_main_script::ScriptError;
use std::alloc::Global;
use std::test::Fail;

/// The first bad line of a text; none where it has none.
fn first_bad(alloc: Global, text: &[u8]) -> Result<Option<u64>, ScriptError> {
    match read_warm(alloc, text) {
        Ok(_) => Ok(None),
        Err(ScriptError::Bad(line)) => Ok(Some(line)),
        Err(ScriptError::Memory) => Err(ScriptError::Memory),
    }
}

/// The number of the first row whose first bad line is another; none where all are told so.
fn first_other_bad(alloc: Global, rows: &[(&[u8], u64)]) -> Result<Option<usize>, ScriptError> {
    for (number, row) in rows.iter().enumerate() {
        if first_bad(alloc, row.0)? != Some(row.1) {
            return Ok(Some(number));
        }
    }
    Ok(None)
}

#[test]
fn bad_ends_and_levels(rt: HostRuntime) -> Result<(), Fail> {
    let rows: [(&[u8], u64); 15] = [
        (b"", 1),
        (b"script 1", 1),
        (b"script 1\n", 2),
        (b"script 1\nlevel remote rw\n", 3),
        (b"script 1\nlevel remote rw\nlevel remote rw\nkey abc", 4),
        (b"script 1\nlevel remote rw\nlevel remote rw\n\n", 4),
        (b"level remote rw\nlevel remote rw\n", 1),
        (b"script 1\nscript 1\n", 2),
        (b"script 2\n", 1),
        (b"script 1\nlevel remote rw\nlevel remote rw\nscript 1\n", 4),
        (
            b"script 1\nlevel remote rw\nlevel remote rw\nlevel remote rw\n",
            4,
        ),
        (b"script 1\nlevel remote rw required\n", 2),
        (b"script 1\nlevel disk rw\n", 2),
        (b"script 1\nlevel daemon\n", 2),
        (b"script 1\nlevel remote rw\nhold 0 abc AAA\n", 3),
    ];
    assert_eq!(rt; first_other_bad(rt.alloc(), &rows)?, None);
    Ok(())
}

/// Two levels, with the line behind them.
fn behind_levels(alloc: Global, rest: &str) -> Result<Option<u64>, Fail> {
    let text = format!(in alloc; "script 1\nlevel remote rw\nlevel remote rw\n{rest}\n")?;
    Ok(first_bad(alloc, text.as_bytes())?)
}

#[test]
fn bad_lines_behind_the_levels(rt: HostRuntime) -> Result<(), Fail> {
    for line in [
        "policy single",
        "policy all",
        "conns 1",
        "tokens 1",
        "limit 5",
        "tool /cc 1 gcc",
        "run abc 0 - -",
        "back 0",
        "pass 1",
        "serve 0",
        "hold 2 abc AAA",
        "hold 0 ab AAA",
        "fail 2 1",
        "key",
        "key ",
        "key abc abd",
        "key \\xff",
        "key \\x4A",
        "Key abc",
        "",
    ] {
        assert_eq!(rt; behind_levels(rt.alloc(), line)?, Some(4));
    }
    assert_eq!(rt;
        behind_levels(rt.alloc(), "hold 0 abc A\nhold 0 abc A")?,
        Some(5)
    );
    assert_eq!(rt;
        behind_levels(rt.alloc(), "key abc\nhold 0 abc AAA")?,
        Some(5)
    );
    assert_eq!(rt; behind_levels(rt.alloc(), "key abc\nfail 0 1")?, Some(5));
    assert_eq!(rt;
        behind_levels(rt.alloc(), "key abc\nlevel remote rw")?,
        Some(5)
    );
    assert_eq!(rt;
        behind_levels(rt.alloc(), "fail 1 1\nhold 1 abc A\nhold 0 abc A\nkey ab")?,
        None
    );
    Ok(())
}

#[test]
fn keys_before_the_second_level(rt: HostRuntime) -> Result<(), Fail> {
    let text = b"script 1\nlevel remote rw\nkey abc\nlevel remote rw\n";
    assert_eq!(rt; first_bad(rt.alloc(), text)?, Some(3));
    assert_eq!(rt; first_bad(rt.alloc(), b"key abc\n")?, Some(1));
    Ok(())
}

#[test]
fn ample_read_warm(rt: HostRuntime) -> Result<(), Fail> {
    let text = b"script 1\nlevel remote rw\nlevel disk 30 ro\nhold 1 abc AAA\nkey abc\nkey ab\n";
    let script = read_warm(rt.alloc(), text)?;
    assert_eq!(rt; script.keys.len(), 2);
    assert_eq!(rt; script.from.holds.len(), 0);
    assert_eq!(rt; script.to.holds.len(), 1);
    assert_eq!(rt; script.to.capacity, 30);
    Ok(())
}
