//! A placing that was done.

use sc_entry::{ByteText, FileObjectSource, Items};
use std::marker::Model;

/// A placing that was done. Contracts see it as the record of placings.
#[derive(Drop)]
pub struct Placement {
    pub outputs: Items<FileObjectSource>,
    pub entry: ByteText,
}

impl Model for Placement {
    ghost use Rattle.sc_model.specs.World.{Place};

    ghost Value = { Place };

    ghost view = { λ p. record { outputs = p.outputs; bytes = p.entry } };
}
