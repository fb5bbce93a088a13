//! The lines of a generated script.
ghost use Rattle.std.specs.Prelude.{◌≡◌, ◌<◌, ◌++◌, OnOk};
ghost use Rattle.sc_main_generate.specs.Lines as lines;

use sc_entry::{ByteText, NoMemory};
use std::alloc::Global;

fn put(text: &mut ByteText, line: &str) -> Result<(), NoMemory>
    ensures { OnOk result (text.new ≡ text.old ++ line.now) }
{
    text.append(line.as_bytes())
}

/// A run under the key of this number.
pub fn put_run(alloc: Global, text: &mut ByteText, key: u64) -> Result<(), NoMemory>
    ensures { OnOk result (text.new ≡ text.old ++ lines.run_line key) }
{
    let (tens, ones) = (key / 10, key % 10);
    let line = format!(in alloc; "run k0{tens}{ones} 0 0{tens}{ones} - obj=0{tens}{ones}\n")?;
    put(text, line.as_str())
}

/// A compile under the key of this number.
pub fn put_ask(alloc: Global, text: &mut ByteText, conn: u64, key: u64) -> Result<(), NoMemory>
    ensures { OnOk result (text.new ≡ text.old ++ lines.ask_line conn key) }
{
    let (tens, ones) = (key / 10, key % 10);
    let line = format!(in alloc;
        "ask {conn} compile /cc / -- --key k0{tens}{ones} --out obj=/o -- a.c\n"
    )?;
    put(text, line.as_str())
}

/// A read of all that comes on a connection.
pub fn put_read(alloc: Global, text: &mut ByteText, conn: u64) -> Result<(), NoMemory>
    ensures { OnOk result (text.new ≡ text.old ++ lines.read_line conn) }
{
    let line = format!(in alloc; "read {conn} 1000000\n")?;
    put(text, line.as_str())
}

/// A step that was drawn: a connection is served, or a handed write goes on.
pub fn put_step(alloc: Global, text: &mut ByteText, drawn: u64) -> Result<(), NoMemory>
    ensures { OnOk result (text.new ≡ text.old ++ lines.step_line drawn) }
{
    if drawn < 4 {
        let line = format!(in alloc; "serve {drawn}\n")?;
        return put(text, line.as_str());
    }
    put_back(text)
}

/// A handed write goes on.
pub fn put_back(text: &mut ByteText) -> Result<(), NoMemory>
    ensures { OnOk result (text.new ≡ text.old ++ lines.back_line) }
{
    put(text, "back 0\n")
}

/// A connection is served so often.
pub fn put_serve(alloc: Global, text: &mut ByteText, conn: u64, times: u64) -> Result<(), NoMemory>
    ensures { OnOk result (text.new ≡ text.old ++ lines.serve_line conn times) }
{
    let line = format!(in alloc; "serve {conn} {times}\n")?;
    put(text, line.as_str())
}

/// What stands before the runs.
pub fn put_head(text: &mut ByteText) -> Result<(), NoMemory>
    ensures { OnOk result (text.new ≡ text.old ++ lines.head_lines) }
{
    put(
        text,
        "script 1\nconns 4\ntokens 2\npolicy l0\nlevel disk 2000 rw\nlevel remote rw\ntool /cc 1 gcc\n",
    )
}
