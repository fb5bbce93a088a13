use crate::file_key::FileKey;

/// An open entry: the key that its file is to have, and the size that is reserved for it.
#[derive(Drop)]
pub(crate) struct Pending {
    pub(crate) key: FileKey,
    pub(crate) size: u64,
}
