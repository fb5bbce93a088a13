//! What a script says of placings.

ghost use Rattle.std.specs.Prelude.{◌≡◌, true};
ghost use Rattle.sc_model.specs.GoodNames.{is_chain};

use sc_compile_table::Keyed;
use sc_entry::{ByteText, Items, Text};

/// A line of a script that says why the placings under a key fail. Its chain has at least one text.
#[derive(Drop)]
pub struct PlaceLine {
    pub key: ByteText,
    pub chain: Items<Text>,
    pub ghost good: { is_chain chain ≡ true },
}

impl Keyed for PlaceLine {
    ghost key = { λ l. l.key };

    fn key(&self) -> &ByteText {
        &self.key
    }
}
