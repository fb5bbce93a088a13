//! How a run ends.
ghost use Rattle.std.specs.Prelude.{◌≡◌, ◌++◌, OnOk};
ghost use Rattle.sc_main_report.specs.Ending.{error_line, exit_code_of};

use sc_entry::NoMemory;
use sc_main_script_words::put_number;
use sc_main_words::put_usage;
use sc_words::put;
use std::alloc::Global;

/// How a run ended.
#[derive(Clone, Copy, Debug, PartialEq, Eq)]
pub enum Ended {
    /// The command was done, and this is its exit status.
    Status(i32),
    /// The words are no command.
    Usage,
    /// The input is no script, and this is its first bad line.
    BadScript(u64),
    /// Memory ran out.
    NoMemory,
    /// The input refused a read.
    ReadFault,
    /// The output, or standard error, refused a write.
    WriteFault,
    /// A link, or what makes or accepts links, a disk, or a command refused, or a server said nothing.
    LinkFault,
    /// A server answered something else.
    Unexpected,
}

/// The exit status of the process: of a status its low eight bits, and a number of its own for each other end.
pub fn exit_code(ended: &Ended) -> u8
    ensures { result ≡ exit_code_of ended.now }
{
    match ended {
        Ended::Status(status) => (status.cast_unsigned() % 256) as u8,
        Ended::Usage => 120,
        Ended::BadScript(_) => 121,
        Ended::NoMemory => 122,
        Ended::ReadFault => 123,
        Ended::WriteFault => 124,
        Ended::LinkFault => 125,
        Ended::Unexpected => 126,
    }
}

/// Appends the line that standard error gets of an end. A command that was done has none, nor has a refused write.
#[tactic(auto, unfolding(crate::specs::Ending::error_line))]
pub fn put_error(alloc: Global, out: &mut Vec<u8>, ended: &Ended) -> Result<(), NoMemory>
    ensures { OnOk result (out.new.items ≡ out.old.items ++ error_line ended.now) }
{
    match ended {
        Ended::Status(_) => Ok(()),
        Ended::Usage => put_usage(out),
        Ended::BadScript(line) => {
            put(out, b"bad script at line ")?;
            put_number(alloc, out, *line)?;
            put(out, b"\n")
        }
        Ended::NoMemory => put(out, b"out of memory\n"),
        Ended::ReadFault => put(out, b"read fault\n"),
        Ended::WriteFault => Ok(()),
        Ended::LinkFault => put(out, b"link fault\n"),
        Ended::Unexpected => put(out, b"Unexpected server response!\n"),
    }
}
