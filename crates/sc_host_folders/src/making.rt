ghost use Rattle.std.specs.Prelude.{◌≡◌, IfOk};
ghost use Rattle.sc_host_folders.specs.Folders.{pre_root};

use crate::folder_error::FolderError;
use sc_entry::{ByteText, NoMemory};
use sc_host::HostDisk;
use std::fs;
use std::fs::Files;

/// The folders of a store on the host.
#[derive(Drop)]
pub struct StoreFolders<R> {
    /// The one of its entries, without those in its folder `preprocessor`.
    pub main: HostDisk<R>,
    /// The one of its preprocessor entries.
    pub pre: HostDisk<R>,
}

/// Where the preprocessor entries of the store in a folder stand.
fn pre_root(folder: &ByteText) -> Result<ByteText, NoMemory>
    ensures { IfOk result (λ root. root ≡ pre_root folder.now) }
{
    let mut root = folder.try_clone()?;
    root.append(b"/preprocessor")?;
    Ok(root)
}

/// Makes a folder, and those that it stands in, where they aren't there.
fn make<R: Files>(rt: &R, folder: &ByteText) -> Result<(), FolderError> {
    let Ok(path) = str::from_utf8(folder.as_slice()) else {
        return Err(FolderError::NotMade);
    };
    match fs::create_dir_all(rt, path) {
        Ok(()) => Ok(()),
        Err(_) => Err(FolderError::NotMade),
    }
}

/// The folders of a store in this one. They are made where they aren't there.
pub fn store_folders<R: Files + Copy>(
    rt: R,
    folder: &ByteText,
) -> Result<StoreFolders<R>, FolderError>
    ensures main { IfOk result (λ folders. (folders.main.root ≡ folder.now) × (folders.main.faults ≡ 0)) }
    ensures pre { IfOk result (λ folders. (folders.pre.root ≡ pre_root folder.now) × (folders.pre.faults ≡ 0)) }
{
    let pre = pre_root(folder)?;
    make(&rt, &pre)?;
    let main = folder.try_clone()?;
    Ok(StoreFolders {
        main: HostDisk::main(rt, main),
        pre: HostDisk::new(rt, pre),
    })
}
