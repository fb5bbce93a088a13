//! The two laws of the spelling of entries.
ghost use Rattle.std.specs.Prelude.{◌≡◌, List, ℕ, Some};
ghost use Rattle.sc_entry.specs.declared.object.Object.{Object};
ghost use Rattle.sc_entry.specs.Entries.{entry, objects, IsEntryList};

/// A list of objects with distinct names is read again from its spelling.
pub fn spelling_is_read_again()
    ensures read_again { (os : List Object) → IsEntryList os → objects (entry os) ≡ Some os }
{}

/// What some bytes spell is spelled by these bytes, and by no others.
pub fn reading_is_spelled()
    ensures spelled { (bytes : List ℕ) → (os : List Object) → objects bytes ≡ Some os → entry os ≡ bytes }
    ensures listed { (bytes : List ℕ) → (os : List Object) → objects bytes ≡ Some os → IsEntryList os }
{}
