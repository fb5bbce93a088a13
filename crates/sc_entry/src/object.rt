ghost use Rattle.std.specs.Prelude.{◌≡◌};

use crate::byte_text::ByteText;
use crate::text::Text;
use std::alloc::AllocError;

/// An object of an entry: an output file, or what a compiler wrote to a stream.
#[derive(Drop)]
pub struct Object {
    pub name: Text,
    /// The file's permission bits, where they are known.
    pub mode: Option<u32>,
    pub bytes: ByteText,
}

/// A file that an object is made from, or is to be placed at.
#[derive(Drop)]
pub struct FileObjectSource {
    /// The object's name.
    pub key: Text,
    pub path: ByteText,
    /// An optional object may be absent.
    pub optional: bool,
}

impl Clone for Object {
    ghost is_clone = { λ original copy. copy ≡ original };

    fn clone(&self) -> Result<Object, AllocError> {
        Ok(Object {
            name: self.name.clone()?,
            mode: self.mode,
            bytes: self.bytes.clone()?,
        })
    }
}

impl Clone for FileObjectSource {
    ghost is_clone = { λ original copy. copy ≡ original };

    fn clone(&self) -> Result<FileObjectSource, AllocError> {
        Ok(FileObjectSource {
            key: self.key.clone()?,
            path: self.path.clone()?,
            optional: self.optional,
        })
    }
}
