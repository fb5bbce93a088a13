use sc_lru::Meter;

/// Measures a file by its size.
#[derive(Drop)]
pub(crate) struct FileSize;

impl<K> Meter<K, u64> for FileSize {
    ghost measure = { λ _ _ size. size };

    fn measure(&self, _key: &K, size: &u64) -> u64 {
        *size
    }
}
