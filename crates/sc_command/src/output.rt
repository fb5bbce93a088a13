use sc_entry::ByteText;
use std::process::ExitStatus;

/// How a child ended, and what it wrote.
#[derive(Debug, Drop)]
pub struct Output {
    pub status: ExitStatus,
    pub stdout: ByteText,
    pub stderr: ByteText,
}
