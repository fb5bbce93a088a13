use sc_entry::{ByteText, NoMemory};
use sc_main_words::{Command, WordsRefusal, parse_words};
use sc_wire_address::SocketAddr;
use std::alloc::Global;
use std::test::Fail;

/// Words, and the command that they are as `shown` tells it.
type Row<'a> = (&'a [&'a [u8]], &'a [u8]);

fn words_of(alloc: Global, words: &[&[u8]]) -> Result<Vec<ByteText>, NoMemory> {
    let mut made = Vec::new(alloc);
    for word in words {
        made.push(ByteText::from_slice(alloc, word)?)?;
    }
    Ok(made)
}

/// Appends a word in angle brackets.
fn put_word(out: &mut Vec<u8>, word: &[u8]) -> Result<(), NoMemory> {
    out.extend_from_slice(b" <")?;
    out.extend_from_slice(word)?;
    out.push(b'>')?;
    Ok(())
}

/// Appends an address behind its kind.
fn put_address(alloc: Global, out: &mut Vec<u8>, address: &SocketAddr) -> Result<(), NoMemory> {
    match address {
        SocketAddr::Net(address) => {
            let text = format!(in alloc; " at {address}")?;
            out.extend_from_slice(text.as_bytes())?;
            Ok(())
        }
        SocketAddr::Unix(path) => {
            out.extend_from_slice(b" path")?;
            put_word(out, path.as_bytes())
        }
        SocketAddr::UnixAbstract(name) => {
            out.extend_from_slice(b" name")?;
            put_word(out, name.as_slice())
        }
    }
}

fn put_number(alloc: Global, out: &mut Vec<u8>, number: u64) -> Result<(), NoMemory> {
    let text = format!(in alloc; " {number}")?;
    out.extend_from_slice(text.as_bytes())?;
    Ok(())
}

/// Appends a flag that was told.
fn put_flag(out: &mut Vec<u8>, told: bool, flag: &[u8]) -> Result<(), NoMemory> {
    if told {
        out.extend_from_slice(flag)?;
    }
    Ok(())
}

fn put_command(alloc: Global, out: &mut Vec<u8>, command: &Command) -> Result<(), NoMemory> {
    match command {
        Command::Drive => put_flag(out, true, b"drive"),
        Command::Generate(number) => {
            out.extend_from_slice(b"generate")?;
            put_number(alloc, out, *number)
        }
        Command::Warm => put_flag(out, true, b"warm"),
        Command::Dry(capacities) => {
            out.extend_from_slice(b"dry")?;
            for capacity in capacities.as_slice() {
                put_number(alloc, out, *capacity)?;
            }
            Ok(())
        }
        Command::Help => put_flag(out, true, b"help"),
        Command::Version => put_flag(out, true, b"version"),
        Command::Serve {
            addr,
            dir,
            bytes,
            tokens,
        } => {
            out.extend_from_slice(b"serve")?;
            put_address(alloc, out, addr)?;
            put_word(out, dir.as_slice())?;
            put_number(alloc, out, *bytes)?;
            put_number(alloc, out, *tokens)
        }
        Command::Compile { addr, exe, words } => {
            out.extend_from_slice(b"compile")?;
            put_address(alloc, out, addr)?;
            put_word(out, exe.as_slice())?;
            for word in words.as_slice() {
                put_word(out, word.as_slice())?;
            }
            Ok(())
        }
        _ => put_client(alloc, out, command),
    }
}

/// Appends a command that asks a server without a compile.
fn put_client(alloc: Global, out: &mut Vec<u8>, command: &Command) -> Result<(), NoMemory> {
    match command {
        Command::Stats {
            addr,
            advanced,
            json,
        } => {
            out.extend_from_slice(b"stats")?;
            put_address(alloc, out, addr)?;
            put_flag(out, *advanced, b" advanced")?;
            put_flag(out, *json, b" json")
        }
        Command::Zero { addr } => {
            out.extend_from_slice(b"zero")?;
            put_address(alloc, out, addr)
        }
        Command::Stop { addr } => {
            out.extend_from_slice(b"stop")?;
            put_address(alloc, out, addr)
        }
        Command::DistStatus { addr } => {
            out.extend_from_slice(b"dist-status")?;
            put_address(alloc, out, addr)
        }
        _ => Ok(()),
    }
}

/// The command that words are, as a text; `usage` where they are none.
fn shown(alloc: Global, words: &[&[u8]]) -> Result<Vec<u8>, NoMemory> {
    let words = words_of(alloc, words)?;
    let mut out = Vec::new(alloc);
    match parse_words(alloc, &words) {
        Ok(command) => put_command(alloc, &mut out, &command)?,
        Err(WordsRefusal::Usage) => out.extend_from_slice(b"usage")?,
        Err(WordsRefusal::NoMemory) => return Err(NoMemory),
    }
    Ok(out)
}

/// The number of the first row that is read otherwise; none where all are read so.
fn first_other(alloc: Global, rows: &[Row<'_>]) -> Result<Option<usize>, NoMemory> {
    for (number, row) in rows.iter().enumerate() {
        let shown = shown(alloc, row.0)?;
        if shown.as_slice() != row.1 {
            return Ok(Some(number));
        }
    }
    Ok(None)
}

#[test]
fn commands_that_stand_alone(rt: HostRuntime) -> Result<(), Fail> {
    let rows: [Row<'_>; 14] = [
        (&[b"drive"], b"drive"),
        (&[b"--help"], b"help"),
        (&[b"--version"], b"version"),
        (&[], b"usage"),
        (&[b""], b"usage"),
        (&[b"drive", b"x"], b"usage"),
        (&[b"drive", b""], b"usage"),
        (&[b"--help", b"drive"], b"usage"),
        (&[b"--version", b"--help"], b"usage"),
        (&[b"Drive"], b"usage"),
        (&[b"drive "], b"usage"),
        (&[b"driv"], b"usage"),
        (&[b"generat", b"1"], b"usage"),
        (&[b"\xff"], b"usage"),
    ];
    assert_eq!(rt; first_other(rt.alloc(), &rows)?, None);
    Ok(())
}

#[test]
fn numbers_of_scripts(rt: HostRuntime) -> Result<(), Fail> {
    let rows: [Row<'_>; 13] = [
        (&[b"generate", b"1"], b"generate 1"),
        (&[b"generate", b"50"], b"generate 50"),
        (&[b"generate", b"2000"], b"generate 2000"),
        (&[b"generate"], b"usage"),
        (&[b"generate", b"0"], b"usage"),
        (&[b"generate", b"2001"], b"usage"),
        (&[b"generate", b"99999999999999999999999"], b"usage"),
        (&[b"generate", b"007"], b"usage"),
        (&[b"generate", b"1", b"2"], b"usage"),
        (&[b"generate", b"x"], b"usage"),
        (&[b"generate", b"-1"], b"usage"),
        (&[b"generate", b""], b"usage"),
        (&[b"generate", b"\xff"], b"usage"),
    ];
    assert_eq!(rt; first_other(rt.alloc(), &rows)?, None);
    Ok(())
}

#[test]
fn words_of_warming_and_of_capacities(rt: HostRuntime) -> Result<(), Fail> {
    let rows: [Row<'_>; 14] = [
        (&[b"warm"], b"warm"),
        (&[b"warm", b"1"], b"usage"),
        (&[b"warm", b""], b"usage"),
        (&[b"dry"], b"dry"),
        (&[b"dry", b"0"], b"dry 0"),
        (&[b"dry", b"10", b"12", b"4", b"12"], b"dry 10 12 4 12"),
        (
            &[b"dry", b"18446744073709551615"],
            b"dry 18446744073709551615",
        ),
        (&[b"dry", b"18446744073709551616"], b"usage"),
        (&[b"dry", b"x"], b"usage"),
        (&[b"dry", b"01"], b"usage"),
        (&[b"dry", b"-1"], b"usage"),
        (&[b"dry", b"1", b""], b"usage"),
        (&[b"dry", b"1", b"2", b"\xff"], b"usage"),
        (&[b"dry", b"--help"], b"usage"),
    ];
    assert_eq!(rt; first_other(rt.alloc(), &rows)?, None);
    Ok(())
}

#[test]
fn ports(rt: HostRuntime) -> Result<(), Fail> {
    let rows: [Row<'_>; 12] = [
        (&[b"zero", b"0"], b"zero at 127.0.0.1:0"),
        (&[b"zero", b"4226"], b"zero at 127.0.0.1:4226"),
        (&[b"zero", b"65535"], b"zero at 127.0.0.1:65535"),
        (&[b"zero", b"65536"], b"usage"),
        (&[b"zero", b"0080"], b"usage"),
        (&[b"zero", b"00"], b"usage"),
        (&[b"zero", b"99999999999999999999999"], b"usage"),
        (&[b"zero", b"+80"], b"zero path <+80>"),
        (&[b"zero", b"80 "], b"zero path <80 >"),
        (&[b"zero", b"8o"], b"zero path <8o>"),
        (&[b"zero", b"127.0.0.1:80"], b"zero path <127.0.0.1:80>"),
        (&[b"zero", b"\xd9\xa1"], b"zero path <\xd9\xa1>"),
    ];
    assert_eq!(rt; first_other(rt.alloc(), &rows)?, None);
    Ok(())
}

#[test]
fn sockets(rt: HostRuntime) -> Result<(), Fail> {
    let rows: [Row<'_>; 14] = [
        (&[b"stop", b"/t/s"], b"stop path </t/s>"),
        (&[b"stop", b""], b"stop path <>"),
        (&[b"stop", b"\\q"], b"stop path <\\q>"),
        (&[b"stop", b"/t/\xc3\xa9"], b"stop path </t/\xc3\xa9>"),
        (
            &[b"stop", b"\\x00sccache.sock"],
            b"stop name <sccache.sock>",
        ),
        (&[b"stop", b"\\x00"], b"stop name <>"),
        (&[b"stop", b"\\x00\\xFf\\n\\\\"], b"stop name <\xff\n\\>"),
        (&[b"stop", b"\\x00a\\q"], b"usage"),
        (&[b"stop", b"\\x00a\\x0"], b"usage"),
        (&[b"stop", b"\\x00a\\"], b"usage"),
        (&[b"stop", b"\xff"], b"usage"),
        (&[b"stop", b"/t/\xc3"], b"usage"),
        (&[b"stop", b"\\x00\xff"], b"usage"),
        (&[b"dist-status", b"7"], b"dist-status at 127.0.0.1:7"),
    ];
    assert_eq!(rt; first_other(rt.alloc(), &rows)?, None);
    Ok(())
}

#[test]
fn too_few_and_too_many(rt: HostRuntime) -> Result<(), Fail> {
    let rows: [Row<'_>; 16] = [
        (&[b"serve"], b"usage"),
        (&[b"serve", b"1"], b"usage"),
        (&[b"serve", b"1", b"d"], b"usage"),
        (&[b"serve", b"1", b"d", b"5"], b"usage"),
        (&[b"serve", b"1", b"d", b"5", b"1", b"x"], b"usage"),
        (&[b"compile"], b"usage"),
        (&[b"compile", b"1"], b"usage"),
        (&[b"stats"], b"usage"),
        (&[b"stats", b"1", b"x"], b"usage"),
        (&[b"zero"], b"usage"),
        (&[b"zero", b"1", b"x"], b"usage"),
        (&[b"stop"], b"usage"),
        (&[b"stop", b"1", b""], b"usage"),
        (&[b"dist-status"], b"usage"),
        (&[b"dist-status", b"1", b"--json"], b"usage"),
        (&[b"1", b"zero"], b"usage"),
    ];
    assert_eq!(rt; first_other(rt.alloc(), &rows)?, None);
    Ok(())
}

#[test]
fn words_of_a_server(rt: HostRuntime) -> Result<(), Fail> {
    let rows: [Row<'_>; 14] = [
        (
            &[b"serve", b"80", b"d", b"0", b"1"],
            b"serve at 127.0.0.1:80 <d> 0 1",
        ),
        (
            &[
                b"serve",
                b"/s",
                b"\xff\x00",
                b"18446744073709551615",
                b"65535",
            ],
            b"serve path </s> <\xff\x00> 18446744073709551615 65535",
        ),
        (
            &[b"serve", b"/s", b"", b"5", b"2"],
            b"serve path </s> <> 5 2",
        ),
        (
            &[b"serve", b"/s", b"d", b"18446744073709551616", b"1"],
            b"usage",
        ),
        (&[b"serve", b"/s", b"d", b"05", b"1"], b"usage"),
        (&[b"serve", b"/s", b"d", b"", b"1"], b"usage"),
        (&[b"serve", b"/s", b"d", b"5k", b"1"], b"usage"),
        (&[b"serve", b"/s", b"d", b"\xff", b"1"], b"usage"),
        (&[b"serve", b"/s", b"d", b"5", b"0"], b"usage"),
        (&[b"serve", b"/s", b"d", b"5", b"65536"], b"usage"),
        (&[b"serve", b"/s", b"d", b"5", b"01"], b"usage"),
        (&[b"serve", b"/s", b"d", b"5", b"\xff"], b"usage"),
        (&[b"serve", b"/\xff", b"d", b"5", b"1"], b"usage"),
        (&[b"serve", b"d", b"/s", b"1", b"5", b"1"], b"usage"),
    ];
    assert_eq!(rt; first_other(rt.alloc(), &rows)?, None);
    Ok(())
}

#[test]
fn words_of_a_compile(rt: HostRuntime) -> Result<(), Fail> {
    let rows: [Row<'_>; 5] = [
        (&[b"compile", b"/s", b"cc"], b"compile path </s> <cc>"),
        (
            &[b"compile", b"/s", b"\xff", b"\xfe", b"", b"--json", b"a b"],
            b"compile path </s> <\xff> <\xfe> <> <--json> <a b>",
        ),
        (
            &[b"compile", b"9", b"", b"--key", b"--key"],
            b"compile at 127.0.0.1:9 <> <--key> <--key>",
        ),
        (&[b"compile", b"\xff", b"cc", b"-c"], b"usage"),
        (&[b"compile", b"65536", b"cc", b"-c"], b"usage"),
    ];
    assert_eq!(rt; first_other(rt.alloc(), &rows)?, None);
    Ok(())
}

#[test]
fn words_of_statistics(rt: HostRuntime) -> Result<(), Fail> {
    let rows: [Row<'_>; 10] = [
        (&[b"stats", b"1"], b"stats at 127.0.0.1:1"),
        (
            &[b"stats", b"1", b"--advanced"],
            b"stats at 127.0.0.1:1 advanced",
        ),
        (&[b"stats", b"1", b"--json"], b"stats at 127.0.0.1:1 json"),
        (
            &[b"stats", b"1", b"--advanced", b"--json"],
            b"stats at 127.0.0.1:1 advanced json",
        ),
        (&[b"stats", b"1", b"--json", b"--advanced"], b"usage"),
        (&[b"stats", b"1", b"--json", b"--json"], b"usage"),
        (&[b"stats", b"1", b"--advanced", b"--advanced"], b"usage"),
        (&[b"stats", b"--json", b"1"], b"usage"),
        (&[b"stats", b"--json"], b"stats path <--json>"),
        (&[b"stats", b"1", b"\xff"], b"usage"),
    ];
    assert_eq!(rt; first_other(rt.alloc(), &rows)?, None);
    Ok(())
}
