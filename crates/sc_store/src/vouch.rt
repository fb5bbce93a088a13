//! What a mark stands for.
ghost use Rattle.std.specs.Prelude.{ℕ, List};

/// A relation of a key and an entry's bytes, which names what a mark stands for: who says that bytes come from a local run
/// is to know it of them. It has no calls, and stores need no law of it.
pub trait Vouch {
    ghost vouched: { List ℕ → List ℕ → Type 0 };
}

/// Nothing is known of what a local run made.
#[derive(Drop)]
pub struct Unvouched;

impl Vouch for Unvouched {
    ghost vouched = { λ _ _. Unit {0} };
}
