//! Daemons of scripts.
use sc_main_memory::{Made, make};
use sc_main_script::{read_script, read_scripts_are_good};
use std::alloc::Global;
use std::test::Fail;

/// A daemon by this script.
pub(crate) fn made(alloc: Global, script: &[u8]) -> Result<Made, Fail> {
    read_scripts_are_good();
    let script = read_script(alloc, script)?;
    Ok(make(alloc, script)?)
}
