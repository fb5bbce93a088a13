ghost use Rattle.std.specs.Prelude.{◌≡◌, ◌++◌, OnOk};
ghost use Rattle.sc_wire.specs.Codec.{Codec};
ghost use Rattle.sc_wire.specs.Gives.{Gives};

use crate::error::DecodeError;
use crate::reader::Reader;
use sc_entry::NoMemory;
use std::alloc::Global;

/// A type whose values are spelled as bytes.
pub trait Wire {
    ghost codec: { Codec Self };

    /// Reads a value from the front.
    fn take(alloc: Global, reader: &mut Reader) -> Result<Self, DecodeError>
        ensures { Gives result reader.new (codec.read reader.old) };

    /// Writes the value's spelling at the end.
    fn put(&self, out: &mut Vec<u8>) -> Result<(), NoMemory>
        ensures spelled { OnOk result (out.new.items ≡ out.old.items ++ codec.spell self.now) }
        ensures fits { OnOk result (codec.Fits self.now) };
}
