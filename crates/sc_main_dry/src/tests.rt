use crate::{dry_report, lend, put_dry_lines, read_uses};
use sc_lru::{DryLine, dry_run};
use sc_main_script::ScriptError;
use std::alloc::{AllocError, Global};
use std::test::Fail;

/// A text of uses, capacities, and their report.
type Row<'a> = (&'a [u8], &'a [u64], &'a [u8]);

const MANY: &[u8] = b"put a 4\nput b 5\nget a\nput c 3\nget b\nget a\n";

/// The number of the first row that is reported otherwise; none where all are reported so.
fn first_other(alloc: Global, rows: &[Row<'_>]) -> Result<Option<usize>, ScriptError> {
    for (number, row) in rows.iter().enumerate() {
        let report = dry_report(alloc, row.0, row.1)?;
        if report.as_slice() != row.2 {
            return Ok(Some(number));
        }
    }
    Ok(None)
}

#[test]
fn ample_dry_report(rt: HostRuntime) -> Result<(), Fail> {
    let rows: [Row<'_>; 9] = [
        (
            MANY,
            &[10, 12, 4],
            b"10 hits 2 misses 1 evicted 1 too-large 0\n12 hits 3 misses 0 evicted 0 too-large 0\n4 hits 1 misses 2 evicted 1 too-large 1\n",
        ),
        (b"", &[0], b"0 hits 0 misses 0 evicted 0 too-large 0\n"),
        (MANY, &[], b""),
        (
            MANY,
            &[12, 12],
            b"12 hits 3 misses 0 evicted 0 too-large 0\n12 hits 3 misses 0 evicted 0 too-large 0\n",
        ),
        (
            b"put a 18446744073709551615\nget a\n",
            &[18446744073709551615, 18446744073709551614],
            b"18446744073709551615 hits 1 misses 0 evicted 0 too-large 0\n18446744073709551614 hits 0 misses 1 evicted 0 too-large 1\n",
        ),
        (
            b"put a 18446744073709551615\nput b 18446744073709551615\nget b\nget a\n",
            &[18446744073709551615],
            b"18446744073709551615 hits 1 misses 1 evicted 1 too-large 0\n",
        ),
        (
            b"get a\nget a\n",
            &[5],
            b"5 hits 0 misses 2 evicted 0 too-large 0\n",
        ),
        (
            b"put - 0\nget -\nget \\x2d\n",
            &[0],
            b"0 hits 1 misses 1 evicted 0 too-large 0\n",
        ),
        (
            b"put \\xc3\\xa9 3\nput \\x20\\x5c 1\nget \\xc3\\xa9\nget \\x20\\x5c\n",
            &[4],
            b"4 hits 2 misses 0 evicted 0 too-large 0\n",
        ),
    ];
    assert_eq!(rt; first_other(rt.alloc(), &rows)?, None);
    Ok(())
}

/// The first bad line of a text; none where it has none.
fn first_bad(alloc: Global, text: &[u8]) -> Result<Option<u64>, ScriptError> {
    match read_uses(alloc, text) {
        Ok(_) => Ok(None),
        Err(ScriptError::Bad(line)) => Ok(Some(line)),
        Err(ScriptError::Memory) => Err(ScriptError::Memory),
    }
}

/// The number of the first row whose first bad line is another; none where all are told so.
fn first_other_bad(alloc: Global, rows: &[(&[u8], u64)]) -> Result<Option<usize>, ScriptError> {
    for (number, row) in rows.iter().enumerate() {
        if first_bad(alloc, row.0)? != Some(row.1) {
            return Ok(Some(number));
        }
    }
    Ok(None)
}

#[test]
fn bad_lines(rt: HostRuntime) -> Result<(), Fail> {
    let rows: [(&[u8], u64); 26] = [
        (b"get a b\n", 1),
        (b"get  a\n", 1),
        (b" get a\n", 1),
        (b"get a \n", 1),
        (b"get\ta\n", 1),
        (b"get a\r\n", 1),
        (b"get\n", 1),
        (b"get \n", 1),
        (b"Get a\n", 1),
        (b"get \\x4A\n", 1),
        (b"get \\xff\n", 1),
        (b"get \xc3\xa9\n", 1),
        (b"put a\n", 1),
        (b"put a \n", 1),
        (b"put a 1 2\n", 1),
        (b"put a 01\n", 1),
        (b"put a -1\n", 1),
        (b"put a +1\n", 1),
        (b"put a 18446744073709551616\n", 1),
        (b"drop a\n", 1),
        (b"\n", 1),
        (b"get a", 1),
        (b"get a\n\n", 2),
        (b"get a\nput a 1\nget", 3),
        (b"get a\nput a 1\nput b\nget a\nget a b\n", 3),
        (b"script 1\nget a\n", 1),
    ];
    assert_eq!(rt; first_other_bad(rt.alloc(), &rows)?, None);
    assert_eq!(rt; first_bad(rt.alloc(), MANY)?, None);
    Ok(())
}

/// A thousand puts of one key, and a get of it.
fn one_key(alloc: Global) -> Result<Vec<u8>, AllocError> {
    let mut text = Vec::new(alloc);
    for _ in 0..1000 {
        text.extend_from_slice(b"put key 3\n")?;
    }
    text.extend_from_slice(b"get key\n")?;
    Ok(text)
}

#[test]
fn puts_of_one_key(rt: HostRuntime) -> Result<(), Fail> {
    let text = one_key(rt.alloc())?;
    let report = dry_report(rt.alloc(), &text, &[3, 2])?;
    assert_eq!(rt;
        report.as_slice(),
        b"3 hits 1 misses 0 evicted 0 too-large 0\n2 hits 0 misses 1 evicted 0 too-large 1000\n".as_slice()
    );
    Ok(())
}

/// Three hundred uses that are drawn, of twenty keys and of fewer than thirty bytes.
fn drawn(alloc: Global) -> Result<Vec<u8>, AllocError> {
    let mut text = Vec::new(alloc);
    let mut state: u64 = 48;
    for _ in 0..300 {
        state = state
            .wrapping_mul(6364136223846793005)
            .wrapping_add(1442695040888963407);
        let draw = state >> 33;
        let key = draw / 3 % 20;
        let bytes = draw / 60 % 30;
        let line = if draw % 3 == 0 {
            format!(in alloc; "put k{key} {bytes}\n")?
        } else {
            format!(in alloc; "get k{key}\n")?
        };
        text.extend_from_slice(line.as_bytes())?;
    }
    Ok(text)
}

/// What a program over the Rust crate `lru` prints of them (`bench/dry`).
const DRAWN_REPORT: &[u8] = b"0 hits 18 misses 168 evicted 0 too-large 112
1 hits 23 misses 163 evicted 0 too-large 111
5 hits 10 misses 176 evicted 14 too-large 98
10 hits 10 misses 176 evicted 32 too-large 78
20 hits 13 misses 173 evicted 71 too-large 37
40 hits 13 misses 173 evicted 99 too-large 0
80 hits 34 misses 152 evicted 83 too-large 0
160 hits 77 misses 109 evicted 47 too-large 0
320 hits 133 misses 53 evicted 3 too-large 0
640 hits 134 misses 52 evicted 0 too-large 0
";

#[test]
fn drawn_uses(rt: HostRuntime) -> Result<(), Fail> {
    let text = drawn(rt.alloc())?;
    let report = dry_report(rt.alloc(), &text, &[0, 1, 5, 10, 20, 40, 80, 160, 320, 640])?;
    assert_eq!(rt; report.as_slice(), DRAWN_REPORT);
    Ok(())
}

#[test]
fn ample_read_uses(rt: HostRuntime) -> Result<(), Fail> {
    let uses = read_uses(rt.alloc(), MANY)?;
    assert_eq!(rt; uses.len(), 6);
    Ok(())
}

#[test]
fn ample_lend(rt: HostRuntime) -> Result<(), Fail> {
    let uses = read_uses(rt.alloc(), MANY)?;
    let lending = lend(rt.alloc(), uses.as_slice())?;
    let lines = dry_run(rt.alloc(), &lending, &[10])?;
    assert_eq!(rt; lines.len(), 1);
    Ok(())
}

#[test]
fn ample_put_dry_lines(rt: HostRuntime) -> Result<(), Fail> {
    let mut out = b"before\n".to_vec(rt.alloc())?;
    let line = DryLine {
        capacity: 1,
        hits: 2,
        misses: 3,
        evicted: 4,
        too_large: 18446744073709551615,
    };
    put_dry_lines(rt.alloc(), &mut out, &[line])?;
    assert_eq!(rt;
        out.as_slice(),
        b"before\n1 hits 2 misses 3 evicted 4 too-large 18446744073709551615\n".as_slice()
    );
    Ok(())
}
