//! What a script says of placings.
use sc_entry::{Items, Text};

/// Why the placings under a key fail, as a line of a script says it.
#[derive(Drop)]
pub struct PlaceRule {
    pub key: Text,
    pub chain: Items<Text>,
}
