//! What holds of every filtering.
ghost use Rattle.std.specs.Prelude.{◌≡◌, ◌++◌, ◌∷◌, List, ℕ, Some, length};
ghost use Rattle.sc_client.specs.Escapes.{HasNoEscape, filtered, sequence};

/// Bytes without an ESC are left as they are, whatever follows them.
pub fn plain_bytes_stay()
    ensures { (front rest : List ℕ) → HasNoEscape front → filtered (front ++ rest) ≡ front ++ filtered rest }
{}

/// A sequence goes, and what follows it is filtered as if it stood alone.
pub fn sequences_go()
    ensures { (within rest : List ℕ) → sequence (within ++ rest) ≡ Some (length within) → filtered (27 ∷ (within ++ rest)) ≡ filtered rest }
{}
