use sc_entry::ByteText;
use std::alloc::AllocError;

/// A file of a disk: its bytes, and the moment of its last use in nanoseconds.
#[derive(Debug, Drop)]
pub struct DiskFile {
    pub moment: u64,
    pub bytes: ByteText,
}

impl Clone for DiskFile {
    ghost use Rattle.std.specs.Prelude.{◌≡◌};

    ghost is_clone = { λ original copy. copy ≡ original };

    fn clone(&self) -> Result<DiskFile, AllocError> {
        Ok(DiskFile {
            moment: self.moment,
            bytes: self.bytes.clone()?,
        })
    }
}
