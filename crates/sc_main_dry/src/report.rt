//! The capacity report of a text of uses.
ghost use Rattle.std.specs.Prelude.{◌≡◌, IfOk};
ghost use Rattle.sc_main_dry.specs.Reports.{Reports, report_of};

use crate::lending::lend;
use crate::printing::put_dry_lines;
use crate::reading::read_uses;
use sc_entry::{NoMemory, Text};
use sc_lru::{Use, dry_run};
use sc_main_script::ScriptError;
use std::alloc::Global;

fn report_of(alloc: Global, uses: &[Use<Text>], capacities: &[u64]) -> Result<Vec<u8>, NoMemory>
    ensures { IfOk result (λ text. text.items ≡ report_of uses.now capacities.now) }
{
    let lending = lend(alloc, uses)?;
    let lines = dry_run(alloc, &lending, capacities)?;
    let mut text = Vec::new(alloc);
    put_dry_lines(alloc, &mut text, &lines)?;
    Ok(text)
}

/// Reads uses, and prints a line for each capacity of what they find there, from an empty cache on. The capacities stand in the
/// order in which they are given, one that is given twice has two lines, and there may be none.
///
/// # Errors
///
/// `Bad` where the bytes are no uses, with the number of the first bad line, whatever the capacities.
pub fn dry_report(alloc: Global, bytes: &[u8], capacities: &[u64]) -> Result<Vec<u8>, ScriptError>
    ensures { Reports bytes.now capacities.now result }
{
    match read_uses(alloc, bytes) {
        Ok(uses) => match report_of(alloc, uses.as_slice(), capacities) {
            Ok(text) => Ok(text),
            Err(_) => Err(ScriptError::Memory),
        },
        Err(ScriptError::Memory) => Err(ScriptError::Memory),
        Err(ScriptError::Bad(line)) => Err(ScriptError::Bad(line)),
    }
}
