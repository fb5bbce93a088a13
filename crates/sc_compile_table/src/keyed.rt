//! What has a key.
ghost use Rattle.std.specs.Prelude.{◌≡◌, List, ℕ};

use sc_entry::ByteText;

/// What has a key.
pub trait Keyed {
    /// Its key.
    ghost key: { Self → List ℕ };

    /// Its key.
    fn key(&self) -> &ByteText
        ensures { result.now ≡ key self.now };
}
