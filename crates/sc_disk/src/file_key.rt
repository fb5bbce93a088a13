//! Keys of files.
ghost use Rattle.std.specs.Prelude.{◌≡◌, Some, refl, bytes_eq};
ghost use Rattle.std.proofs.Common.{rules};
ghost use Rattle.std.specs.Cmp.Lexicographic.{nat_list_eq_equiv};
ghost use Rattle.std.specs.Cmp.Rules.{hashing};
ghost use Rattle.std.specs.Cmp.{partial_equiv_from_equiv};
ghost use Rattle.std.specs.Hash as fed;

use sc_entry::Text;
use std::alloc::AllocError;
use std::hash::{Hash, Hasher};
use std::marker::Model;

/// A text that names a file of a store: the file's path under the root of its disk. Whether it may do so is looked at by
/// the calls of the store. Contracts see it as the list of its bytes.
#[derive(Debug, Drop)]
pub struct FileKey {
    path: Text,
}

impl Model for FileKey {
    ghost use Rattle.std.specs.Prelude.{List, ℕ};

    ghost Value = { List ℕ };

    ghost view = { λ k. k.path };
}

impl FileKey {
    pub fn new(path: Text) -> FileKey
        ensures { result ≡ path }
    {
        FileKey { path }
    }

    pub fn as_text(&self) -> &Text
        ensures { result.now ≡ self.now }
    {
        &self.path
    }
}

impl Clone for FileKey {
    ghost is_clone = { λ key copy. copy ≡ key };

    fn clone(&self) -> Result<FileKey, AllocError> {
        Ok(FileKey {
            path: self.path.clone()?,
        })
    }
}

impl PartialEq for FileKey {
    ghost eq = { λ a b. bytes_eq a b };

    ghost laws = { partial_equiv_from_equiv nat_list_eq_equiv };

    fn eq(&self, other: &FileKey) -> bool {
        self.path == other.path
    }
}

impl Eq for FileKey {
    ghost laws = { nat_list_eq_equiv };
}

impl Hash for FileKey {
    ghost hash_input = { λ a. fed.slice fed.u8 a };

    ghost respects_eq = { Prim.search (hashing, rules) };

    fn hash<H: Hasher>(&self, state: &mut H) {
        self.path.as_bytes().hash(state);
    }
}
