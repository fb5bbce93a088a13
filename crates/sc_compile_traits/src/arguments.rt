//! What a compile's words are.

use sc_entry::Text;

/// What a compiler reads from a compile's words.
#[derive(Debug, Drop, PartialEq, Eq)]
pub enum CompilerArguments<H> {
    /// A compile, and what finds its key.
    Ok(H),
    /// A compile that can't be cached: why, and what may stand beside.
    CannotCache(Text, Option<Text>),
    /// No compile.
    NotCompilation,
}
