//! What a pair takes of a cache's capacity.
ghost use Rattle.std.specs.Prelude.{◌≡◌, ℕ};

/// What a pair takes of a cache's capacity.
pub trait Meter<K, V> {
    ghost measure: { Self → K → V → ℕ };

    /// The measure of a pair, the same for equal pairs.
    fn measure(&self, key: &K, value: &V) -> u64
        ensures { result ≡ measure self.now key.now value.now };
}

/// Measures each pair as 1, so that a capacity is a number of pairs.
#[derive(Drop)]
pub struct Count;

impl<K, V> Meter<K, V> for Count {
    ghost measure = { λ _ _ _. 1 };

    fn measure(&self, _key: &K, _value: &V) -> u64 {
        1
    }
}
