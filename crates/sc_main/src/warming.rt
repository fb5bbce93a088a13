//! Warms one level from another by a script, and tells what became of each key.
ghost use Rattle.std.specs.Prelude.{◌≡◌, true, IfOk};
ghost use Rattle.sc_main_script.specs.Goods.{are_store_keys};
ghost use Rattle.sc_main.specs.Warming.{WarmReports, WarmsScript};

use crate::warm_lines::text_of;
use sc_entry::NoMemory;
use sc_main_memory::{level, level_size};
use sc_main_script::ScriptError;
use sc_main_warm::{WarmScript, read_warm, warmed_levels_hold_store_keys};
use sc_store_warm::warm;
use std::alloc::Global;

/// Warms the levels of a script, and prints what came of it.
fn warmed_text(alloc: Global, script: WarmScript) -> Result<Vec<u8>, NoMemory>
    requires from { are_store_keys script.from.holds ≡ true }
    requires to { are_store_keys script.to.holds ≡ true }
    ensures { IfOk result (λ text. WarmsScript script text.items) }
{
    let mut from = level(alloc, 0, script.from)?;
    let mut to = level(alloc, 1, script.to)?;
    let keys = script.keys;
    let warmed = warm(alloc, &mut from, &mut to, keys.as_slice(), 0)?;
    let from_size = level_size(&from)?;
    let to_size = level_size(&to)?;
    let text = text_of(alloc, keys.as_slice(), &warmed, from_size, to_size)?;
    Ok(text)
}

/// Reads a script of warm, makes its two levels as a drive makes levels, copies the entries of its keys from the first into the
/// second, all at moment 0, and prints what became of each key, and what both levels hold then. A refused key is told and ends
/// nothing.
///
/// # Errors
///
/// `Bad` where the bytes are no such script, with the number of the first bad line.
pub fn warm_report(alloc: Global, bytes: &[u8]) -> Result<Vec<u8>, ScriptError>
    ensures { WarmReports bytes.now result }
{
    match read_warm(alloc, bytes) {
        Ok(script) => {
            warmed_levels_hold_store_keys();
            match warmed_text(alloc, script) {
                Ok(text) => Ok(text),
                Err(_) => Err(ScriptError::Memory),
            }
        }
        Err(ScriptError::Memory) => Err(ScriptError::Memory),
        Err(ScriptError::Bad(line)) => Err(ScriptError::Bad(line)),
    }
}
