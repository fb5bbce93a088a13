//! The two folders of a store on the host: the edge to the outside.
#![tactic(auto)]

mod folder_error;
mod making;

pub use folder_error::FolderError;
pub use making::{StoreFolders, store_folders};
