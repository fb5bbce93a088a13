//! The variables of the process.
ghost use Rattle.std.specs.Prelude.{◌↔◌, IfOk, IfSome, IsTrue};
ghost use Rattle.std.specs.Str.{IsUtf8};

use sc_entry::{ByteText, Items, NoMemory};
use sc_model::Variable;
use sc_words::cut;
use std::alloc::Global;
use std::env::{Env, FillError};

/// How many bytes a variable is first thought to have.
const FIRST: usize = 256;

/// The variable at this place as the system keeps it; none behind the last.
fn entry_at<R: Env>(rt: &R, alloc: Global, place: usize) -> Result<Option<Vec<u8>>, NoMemory> {
    let mut capacity = FIRST;
    for _ in 0..usize::BITS {
        let mut entry = vec![in alloc; 0u8; capacity]?;
        match rt.var_at(place, &mut entry) {
            Ok(len) => {
                entry.truncate(len);
                return Ok(Some(entry));
            }
            Err(FillError::NotPresent) => return Ok(None),
            Err(FillError::TooLong) => capacity = capacity.saturating_add(capacity),
        }
    }
    Err(NoMemory)
}

fn is_text(bytes: &[u8]) -> bool
    ensures { IsTrue result ↔ IsUtf8 bytes.now }
{
    str::from_utf8(bytes).is_ok()
}

/// A variable, where it has a name, and both its name and its value are UTF-8.
fn variable_of(alloc: Global, entry: &[u8]) -> Result<Option<Variable>, NoMemory>
    ensures { IfOk result (λ found. IfSome found (λ v. IsUtf8 v.name × IsUtf8 v.value)) }
{
    let Some((name, value)) = cut(entry, b'=') else {
        return Ok(None);
    };
    if name.is_empty() || !is_text(name) || !is_text(value) {
        return Ok(None);
    }
    let name = ByteText::from_slice(alloc, name)?;
    let value = ByteText::from_slice(alloc, value)?;
    Ok(Some(Variable { name, value }))
}

/// The variables of the process. One whose name or value isn't UTF-8 is left out.
pub(crate) fn variables<R: Env>(rt: &R, alloc: Global) -> Result<Items<Variable>, NoMemory> {
    let mut variables = Items::new(alloc);
    for place in 0..usize::MAX {
        let Some(entry) = entry_at(rt, alloc, place)? else {
            break;
        };
        if let Some(variable) = variable_of(alloc, &entry)? {
            variables.push(variable)?;
        }
    }
    Ok(variables)
}
