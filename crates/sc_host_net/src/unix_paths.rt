//! Unix sockets at paths of the host.

use std::alloc::AllocGlobal;
use std::fs::{Files, Permissions};
use std::io::ErrorKind;
use std::net::Net;
use std::os::fd::{AsFd, AsRawFd};
use std::os::unix::fs::{FileTypeExt, PermissionsExt};
use std::os::unix::net::{SocketAddr, UnixListener, UnixStream};
use std::time::{Clock, SystemTime};
use std::{fs, io};

/// Who may connect: the owner alone.
const MODE: u32 = 0o600;

/// How many clients may wait for an accept.
const BACKLOG: i32 = 128;

/// Removes the socket at a path where nobody answers. What answers, and any other file, stays, and is refused.
fn clear_path<R: Files + Net>(rt: &R, path: &str) -> io::Result<()> {
    let found = match fs::symlink_metadata(rt, path) {
        Ok(found) => found,
        Err(error) if error.kind() == ErrorKind::NotFound => return Ok(()),
        Err(error) => return Err(error),
    };
    if !found.file_type().is_socket() {
        return Err(io::Error::from(ErrorKind::AlreadyExists));
    }
    match UnixStream::connect(rt, path) {
        Ok(_) => Err(io::Error::from(ErrorKind::AddrInUse)),
        Err(error) if error.kind() == ErrorKind::ConnectionRefused => fs::remove_file(rt, path),
        Err(error) => Err(error),
    }
}

/// A name in the folder of a path that nothing else has: it tells the moment.
fn name_beside<R: AllocGlobal + Clock>(rt: &R, path: &str) -> io::Result<String> {
    let since = match SystemTime::now(rt)?.duration_since(SystemTime::UNIX_EPOCH) {
        Ok(since) => since.subsec_nanos(),
        Err(_) => 0,
    };
    match path.rsplit_once('/') {
        Some((folder, _)) => Ok(format!(in rt.alloc(); "{folder}/.{since}")?),
        None => Ok(format!(in rt.alloc(); ".{since}")?),
    }
}

/// A listener at a path that nobody else can connect to: it listens only once its mode is set.
fn private_listener<R: Files + Net>(rt: &R, path: &str) -> io::Result<UnixListener> {
    let socket = rt.unix_socket()?;
    rt.bind_unix(socket.as_fd(), &SocketAddr::from_pathname(path)?)?;
    fs::set_permissions(rt, path, Permissions::from_mode(MODE))?;
    if libc::net::listen(socket.as_raw_fd(), BACKLOG) < 0 {
        return Err(io::Error::from(ErrorKind::Other));
    }
    Ok(UnixListener::from(socket))
}

/// Makes a listener at one path and moves it to another.
fn moved_listener<R: Files + Net>(rt: &R, from: &str, to: &str) -> io::Result<UnixListener> {
    let listener = private_listener(rt, from)?;
    fs::rename(rt, from, to)?;
    Ok(listener)
}

/// A listener at a path. It is made beside it and moved there, so that nobody else can connect at any moment.
pub fn listen_at<R: AllocGlobal + Files + Net + Clock>(
    rt: &R,
    path: &str,
) -> io::Result<UnixListener> {
    clear_path(rt, path)?;
    let beside = name_beside(rt, path)?;
    match moved_listener(rt, beside.as_str(), path) {
        Ok(listener) => Ok(listener),
        Err(error) => {
            let _removed = fs::remove_file(rt, beside.as_str());
            Err(error)
        }
    }
}
