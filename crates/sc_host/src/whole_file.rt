//! Files that are read whole.
use sc_entry::ByteText;
use std::fs::{Files, Metadata, OpenFile};
use std::io::{ErrorKind, Read};
use std::{fs, io};

/// All bytes of a file, and what it was when it was opened. It is asked for its size first, so that two reads bring them all. A file
/// that loses bytes meanwhile is refused.
pub(crate) fn read_whole<R: AllocGlobal + Files>(
    rt: &R,
    path: &str,
) -> io::Result<(ByteText, Metadata)> {
    let mut file = fs::open(rt, path)?;
    let metadata = file.metadata()?;
    let Ok(size) = usize::try_from(metadata.len()) else {
        return Err(io::Error::from(ErrorKind::FileTooLarge));
    };
    // The last read, which finds the end, has room for a byte.
    let mut bytes = Vec::with_capacity(rt.alloc(), size.saturating_add(1))?;
    bytes.resize(size, 0)?;
    file.read_exact(&mut bytes)?;
    file.read_to_end(&mut bytes)?;
    Ok((ByteText::from_vec(bytes), metadata))
}
