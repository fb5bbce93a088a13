//! The edge to the outside: folders, files, streams and programs of the host behind the traits that everything else is proved
//! over. They tell nothing, and count each refusal.
#![tactic(auto)]

mod async_command;
mod child;
mod drained;
mod host_disk;
mod host_files;
mod host_paths;
mod process_creator;
mod process_fault;
mod real_streams;
mod system_command;
mod whole_file;

pub use async_command::AsyncCommand;
pub use child::Child;
pub use drained::Drained;
pub use host_disk::HostDisk;
pub use host_files::HostFiles;
pub use process_creator::ProcessCommandCreator;
pub use process_fault::ProcessFault;
pub use real_streams::{ReaderSource, WriterSink};
