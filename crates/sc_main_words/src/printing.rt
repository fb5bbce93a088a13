//! What the program prints of its commands.
ghost use Rattle.std.specs.Prelude.{◌≡◌, ◌++◌, OnOk};
ghost use Rattle.sc_main_words.specs.Texts.{client_lines, help_lines, own_lines, planning_lines, server_end_lines, server_lines, usage_line};

use sc_entry::NoMemory;
use sc_words::put;

/// Appends the line of the program's commands.
///
/// # Errors
///
/// `NoMemory` where there is no memory for it.
pub fn put_usage(out: &mut Vec<u8>) -> Result<(), NoMemory>
    ensures { OnOk result (out.new.items ≡ out.old.items ++ usage_line) }
{
    put(
        out,
        b"usage: sccache drive | generate N | serve ADDR DIR BYTES TOKENS | compile ADDR EXE WORD.. | stats ADDR [--advanced] [--json] | zero ADDR | stop ADDR | dist-status ADDR | warm | dry CAP..\n",
    )
}

fn put_server(out: &mut Vec<u8>) -> Result<(), NoMemory>
    ensures { OnOk result (out.new.items ≡ out.old.items ++ server_lines) }
{
    put(
        out,
        b"drive: reads a script from standard input, drives a daemon by it, and prints the report\n",
    )?;
    put(
        out,
        b"generate: drives a daemon by a script that is made of the number N, 1 to 2000, and prints the report from its first level on\n",
    )?;
    put(
        out,
        b"serve: serves clients at ADDR, a port or the path of a Unix socket, one link after the other for now; keeps results in DIR, BYTES bytes at most, and runs TOKENS compilers at once at most\n",
    )
}

fn put_client(out: &mut Vec<u8>) -> Result<(), NoMemory>
    ensures { OnOk result (out.new.items ≡ out.old.items ++ client_lines) }
{
    put(
        out,
        b"compile: has the server at ADDR compile by EXE with the words WORD.., and runs EXE itself where the server does not\n",
    )?;
    put(
        out,
        b"stats: prints the statistics of the server at ADDR, with --advanced by compiler too, with --json as JSON\n",
    )?;
    put(
        out,
        b"zero: sets the statistics of the server at ADDR to zero\n",
    )
}

fn put_server_end(out: &mut Vec<u8>) -> Result<(), NoMemory>
    ensures { OnOk result (out.new.items ≡ out.old.items ++ server_end_lines) }
{
    put(
        out,
        b"stop: stops the server at ADDR, and prints its statistics\n",
    )?;
    put(
        out,
        b"dist-status: prints how the distributed compilation of the server at ADDR stands, as JSON\n",
    )
}

fn put_planning(out: &mut Vec<u8>) -> Result<(), NoMemory>
    ensures { OnOk result (out.new.items ≡ out.old.items ++ planning_lines) }
{
    put(
        out,
        b"warm: reads a script of two levels and of keys from standard input, copies the keys' entries from the first level to the second, and prints what became of each\n",
    )?;
    put(
        out,
        b"dry: reads the uses of a cache from standard input, lines get KEY and put KEY SIZE, and prints for each capacity CAP, in bytes, what they find there\n",
    )
}

fn put_own(out: &mut Vec<u8>) -> Result<(), NoMemory>
    ensures { OnOk result (out.new.items ≡ out.old.items ++ own_lines) }
{
    put(out, b"--help: prints this text\n")?;
    put(out, b"--version: prints the program's version\n")
}

/// Appends the usage, and a line for each command of what it does.
///
/// # Errors
///
/// `NoMemory` where there is no memory for them.
pub fn put_help(out: &mut Vec<u8>) -> Result<(), NoMemory>
    ensures { OnOk result (out.new.items ≡ out.old.items ++ help_lines) }
{
    put_usage(out)?;
    put_server(out)?;
    put_client(out)?;
    put_server_end(out)?;
    put_planning(out)?;
    put_own(out)
}
