//! What finds compilers.

ghost use Rattle.std.specs.Prelude.{◌≡◌, IfOk, List, Option, Some};
ghost use Rattle.sc_entry.specs.Causes.{IfTold};
ghost use Rattle.sc_compile.specs.KeySteps.{refusal_of};
ghost use Rattle.sc_compile.specs.Tools.{detected_as, detected_of, moment_of};
ghost use Rattle.sc_compile.specs.declared.key_line.KeyLine.{KeyLine};
ghost use Rattle.sc_compile.specs.declared.tool.Tool.{Tool};

use crate::key_line::{KeyLine, KeyRefusal};
use crate::tool::{Detected, Tool, ToolKind};
use sc_compile_table::Table;
use sc_entry::{ByteText, NoMemory, Text};
use std::alloc::Global;

/// What finds compilers. It has no faults.
pub trait Probe {
    /// The tools that it finds, where it tells them.
    ghost table: { Self → Option (List Tool) };

    /// The lines by which its compilers refuse key steps, where it tells them.
    ghost keys: { Self → Option (List KeyLine) };

    /// When the file at a path was changed, where there is one.
    fn moment(&self, path: &ByteText) -> Option<u64>
        ensures { IfTold (table self.now) (λ tools. result ≡ moment_of tools path.now) };

    /// Which compiler the file at a path is, or why it is none.
    fn detect(&self, alloc: Global, path: &ByteText) -> Result<Detected, NoMemory>
        ensures { IfOk result (λ found. IfTold (table self.now) (λ tools. found ≡ detected_of tools path.now)) };

    /// Why its compilers give no key where this would be it, if they don't.
    fn refusal(&self, alloc: Global, key: &Text) -> Result<Option<KeyRefusal>, NoMemory>
        ensures { IfOk result (λ refusal. IfTold (keys self.now) (λ lines. refusal ≡ refusal_of lines key.now)) };
}

/// A table of tools, and of keys that their key steps refuse. Of the tools with one path, and of the lines of one key, the first
/// is found.
#[derive(Drop)]
pub struct ToolTable {
    tools: Table<Tool>,
    keys: Table<KeyLine>,
}

fn detected_as(alloc: Global, kind: ToolKind) -> Result<Detected, NoMemory>
    ensures { IfOk result (λ found. found ≡ detected_as kind) }
{
    match kind {
        ToolKind::Compiler(compiler) => Ok(Detected::Compiler(compiler)),
        ToolKind::NotACompiler => {
            let why = Text::from_str(alloc, "not a compiler")?;
            Ok(Detected::Refused(why))
        }
    }
}

impl ToolTable {
    /// A table of these tools, whose compilers refuse these keys.
    pub fn new(alloc: Global, tools: Vec<Tool>, keys: Vec<KeyLine>) -> Result<ToolTable, NoMemory>
        ensures tools { IfOk result (λ table. table.tools ≡ tools.items) }
        ensures keys { IfOk result (λ table. table.keys ≡ keys.items) }
    {
        let tools = Table::new(alloc, tools)?;
        let keys = Table::new(alloc, keys)?;
        Ok(ToolTable { tools, keys })
    }
}

impl Probe for ToolTable {
    ghost table = { λ t. Some t.tools };

    ghost keys = { λ t. Some t.keys };

    fn moment(&self, path: &ByteText) -> Option<u64> {
        match self.tools.first(path) {
            None => None,
            Some(tool) => Some(tool.moment),
        }
    }

    fn detect(&self, alloc: Global, path: &ByteText) -> Result<Detected, NoMemory> {
        match self.tools.first(path) {
            None => {
                let why = Text::from_str(alloc, "compiler not found")?;
                Ok(Detected::Refused(why))
            }
            Some(tool) => detected_as(alloc, tool.kind),
        }
    }

    fn refusal(&self, alloc: Global, key: &Text) -> Result<Option<KeyRefusal>, NoMemory> {
        let key = ByteText::from_slice(alloc, key.as_bytes())?;
        match self.keys.first(&key) {
            None => Ok(None),
            Some(line) => Ok(Some(line.refusal.clone()?)),
        }
    }
}
