//! What a script says of key steps.

ghost use Rattle.std.specs.Prelude.{◌≡◌};

use sc_compile_table::Keyed;
use sc_entry::{ByteText, Items, Text};
use sc_model::Output;
use std::alloc::AllocError;

/// Why a key step gives no key.
#[derive(Drop)]
pub enum KeyRefusal {
    /// A process that it ran ended so.
    ProcessError(Output),
    /// A fault's chain of texts.
    Fault(Items<Text>),
}

impl Clone for KeyRefusal {
    ghost is_clone = { λ original copy. copy ≡ original };

    fn clone(&self) -> Result<KeyRefusal, AllocError> {
        match self {
            KeyRefusal::ProcessError(output) => Ok(KeyRefusal::ProcessError(output.clone()?)),
            KeyRefusal::Fault(chain) => Ok(KeyRefusal::Fault(chain.clone()?)),
        }
    }
}

/// A line of a script that says why the key steps of a key give none.
#[derive(Drop)]
pub struct KeyLine {
    pub key: ByteText,
    pub refusal: KeyRefusal,
}

impl Keyed for KeyLine {
    ghost key = { λ l. l.key };

    fn key(&self) -> &ByteText {
        &self.key
    }
}
