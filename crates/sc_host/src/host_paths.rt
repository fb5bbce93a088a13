//! Paths as the host takes them.
use sc_entry::ByteText;
use std::io;
use std::io::ErrorKind;

/// Bytes as a path of the host. Those that aren't UTF-8 are refused.
pub(crate) fn host_path(path: &ByteText) -> io::Result<&str> {
    match str::from_utf8(path.as_slice()) {
        Ok(path) => Ok(path),
        Err(_) => Err(io::Error::from(ErrorKind::InvalidInput)),
    }
}
