//! What a compiler is run with.

use crate::message::Variable;
use sc_entry::{ByteText, Items};

/// What a compiler is run with.
#[derive(Drop)]
pub struct SingleCompileCommand {
    pub executable: ByteText,
    pub arguments: Items<ByteText>,
    pub env_vars: Items<Variable>,
    pub cwd: ByteText,
    pub share_jobserver: bool,
}
