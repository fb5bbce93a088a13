use sc_main_words::{put_help, put_usage};
use std::test::Fail;

const USAGE: &[u8] =
    b"usage: sccache drive | generate N | serve ADDR DIR BYTES TOKENS | compile ADDR EXE WORD.. | stats ADDR [--advanced] [--json] | zero ADDR | stop ADDR | dist-status ADDR | warm | dry CAP..\n";

/// The lines of the help behind the usage.
const HELP: [&[u8]; 12] = [
    b"drive: reads a script from standard input, drives a daemon by it, and prints the report\n",
    b"generate: drives a daemon by a script that is made of the number N, 1 to 2000, and prints the report from its first level on\n",
    b"serve: serves clients at ADDR, a port or the path of a Unix socket, one link after the other for now; keeps results in DIR, BYTES bytes at most, and runs TOKENS compilers at once at most\n",
    b"compile: has the server at ADDR compile by EXE with the words WORD.., and runs EXE itself where the server does not\n",
    b"stats: prints the statistics of the server at ADDR, with --advanced by compiler too, with --json as JSON\n",
    b"zero: sets the statistics of the server at ADDR to zero\n",
    b"stop: stops the server at ADDR, and prints its statistics\n",
    b"dist-status: prints how the distributed compilation of the server at ADDR stands, as JSON\n",
    b"warm: reads a script of two levels and of keys from standard input, copies the keys' entries from the first level to the second, and prints what became of each\n",
    b"dry: reads the uses of a cache from standard input, lines get KEY and put KEY SIZE, and prints for each capacity CAP, in bytes, what they find there\n",
    b"--help: prints this text\n",
    b"--version: prints the program's version\n",
];

#[test]
fn ample_put_usage(rt: HostRuntime) -> Result<(), Fail> {
    let mut wanted = b"before\n".to_vec(rt.alloc())?;
    wanted.extend_from_slice(USAGE)?;
    let mut out = b"before\n".to_vec(rt.alloc())?;
    put_usage(&mut out)?;
    assert_eq!(rt; out.as_slice(), wanted.as_slice());
    Ok(())
}

#[test]
fn ample_put_help(rt: HostRuntime) -> Result<(), Fail> {
    let mut wanted = USAGE.to_vec(rt.alloc())?;
    for line in HELP {
        wanted.extend_from_slice(line)?;
    }
    let mut out = Vec::new(rt.alloc());
    put_help(&mut out)?;
    assert_eq!(rt; out.as_slice(), wanted.as_slice());
    Ok(())
}
