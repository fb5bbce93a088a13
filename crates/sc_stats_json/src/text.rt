ghost use Rattle.std.specs.Prelude.{◌≡◌, false, IfOk};
ghost use Rattle.serde_json.specs.View.{view};
ghost use Rattle.serde_json.specs.Written.{compact_text, has_float};

use sc_entry::{NoMemory, Text};
use serde_json::Value;
use std::alloc::Global;

/// The text of a value, without spaces.
pub(crate) fn compact_text(alloc: Global, value: &Value) -> Result<Text, NoMemory>
    ensures { IfOk result (λ text. has_float (view value.now) ≡ false → text ≡ compact_text (view value.now)) }
{
    Ok(Text::from_string(value.to_string(alloc)?))
}
