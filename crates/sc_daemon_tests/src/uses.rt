ghost use Rattle.std.specs.Prelude.{◌≡◌, ℕ, true};
ghost use Rattle.sc_daemon_owned.specs.State.{reserved_in};

use sc_daemon::{Daemon, Driven, drive};
use sc_daemon_uses::uses_of;
use sc_entry::NoMemory;
use sc_lru::Use;
use sc_main_memory::{Made, Memory, make};
use sc_main_script::{read_script, read_scripts_are_good};
use std::alloc::{AllocError, Global};
use std::test::Fail;

/// A script, a level, and the uses of that level that a drive by the script makes, a line each.
type Row<'a> = (&'a [u8], u64, &'a [u8]);

/// A hit behind a miss, at a single remote store.
const TWICE: &[u8] = b"script 1
conns 1
level remote rw
tool /cc 1 gcc
run key1 0 hi - obj=AB
ask 0 compile /cc / -- --key key1 --out obj=/o -- a.c
ask 0 compile /cc / -- --key key1 --out obj=/o -- a.c
read 0 1000
serve 0 17
";

/// A hit at the last of three levels, a put, and one of the writes that the hit handed on.
const HANDED: &[u8] = b"script 1
conns 1
policy all
level remote rw
level remote rw
level remote rw
hold 2 abc AAA
ask 0 get-raw abc
ask 0 put-raw abc BB
read 0 1000
serve 0 11
back 0
";

/// A disk level whose second put doesn't fit, a key that is none, and a lookup of sizes.
const REFUSED: &[u8] = b"script 1
conns 1
level disk 10 rw
ask 0 put-raw abc 12345
ask 0 put-raw abd 12345678901
ask 0 put-raw ab BB
ask 0 get-raw ab
ask 0 get-raw abd
ask 0 get-stats
read 0 10000
serve 0 60
";

/// A remote level that refuses its first read and its second write.
const FAULTS: &[u8] = b"script 1
conns 1
level remote rw
fail 0 1
fail 0 3
ask 0 get-raw abc
ask 0 put-raw abc 12
ask 0 put-raw abd 123
read 0 1000
serve 0 20
";

/// Drops a daemon in a call of its own: dropped where it is used it takes the check minutes.
fn discard_daemon(daemon: Daemon<Memory>) {
    drop(daemon);
}

/// Drives a daemon that is made for this.
fn driven_by(alloc: Global, made: Made) -> Result<Driven, NoMemory>
    requires told { made.owned.told ≡ true }
    requires unreserved { (level : ℕ) → reserved_in made.owned level ≡ 0 }
{
    let Made {
        owned,
        inputs,
        steps,
    } = made;
    let mut daemon = Daemon::new(alloc, owned)?;
    let driven = drive(alloc, &mut daemon, inputs.as_slice(), steps.as_slice());
    discard_daemon(daemon);
    driven
}

/// Appends a line for each use, as a text of uses has it.
fn put_uses(alloc: Global, out: &mut Vec<u8>, uses: &[Use<&str>]) -> Result<(), AllocError> {
    for one in uses {
        let line = match one {
            Use::Get(key) => format!(in alloc; "get {key}\n")?,
            Use::Put(key, bytes) => format!(in alloc; "put {key} {bytes}\n")?,
        };
        out.extend_from_slice(line.as_bytes())?;
    }
    Ok(())
}

/// Whether the uses of a level of a drive are these.
fn has_uses(alloc: Global, driven: &Driven, level: u64, lines: &[u8]) -> Result<bool, NoMemory> {
    let uses = uses_of(alloc, driven, level)?;
    let mut out = Vec::new(alloc);
    put_uses(alloc, &mut out, &uses)?;
    Ok(out.as_slice() == lines)
}

/// Whether a drive by the script makes these uses of the level.
fn makes(alloc: Global, row: Row<'_>) -> Result<bool, Fail> {
    read_scripts_are_good();
    let script = read_script(alloc, row.0)?;
    let made = make(alloc, script)?;
    let driven = driven_by(alloc, made)?;
    Ok(has_uses(alloc, &driven, row.1, row.2)?)
}

#[test]
fn ample_uses_of(rt: HostRuntime) -> Result<(), Fail> {
    let rows: [Row<'_>; 8] = [
        (TWICE, 0, b"get key1\nput key1 41\nget key1\n"),
        (TWICE, 1, b""),
        (HANDED, 0, b"get abc\nput abc 2\nput abc 3\n"),
        (HANDED, 1, b"get abc\nput abc 2\n"),
        (HANDED, 2, b"get abc\nput abc 2\n"),
        (HANDED, 18446744073709551615, b""),
        (REFUSED, 0, b"put abc 5\nget abd\n"),
        (FAULTS, 0, b"get abc\nput abc 2\n"),
    ];
    for row in rows {
        assert!(rt; makes(rt.alloc(), row)?, "at level {}", row.1);
    }
    Ok(())
}
