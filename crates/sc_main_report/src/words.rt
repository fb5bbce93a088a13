//! The program's version.
ghost use Rattle.std.specs.Prelude.{◌≡◌, ◌++◌, OnOk};
ghost use Rattle.sc_main_report.specs.Words.{version_line};

use sc_entry::NoMemory;
use sc_words::put;

/// Appends the line of the program's version.
pub fn put_version(out: &mut Vec<u8>) -> Result<(), NoMemory>
    ensures { OnOk result (out.new.items ≡ out.old.items ++ version_line) }
{
    put(out, b"sccache 0.19.0\n")
}
