//! The settings of a drawn script: its levels and their policy, its compiler, and its runs.
ghost use Rattle.std.specs.Prelude.{◌≡◌, ◌∷◌, [], IfOk};
ghost use Rattle.sc_main_drawn.specs.Drawn as drawn;

use crate::keys::run;
use sc_compile::{Tool, ToolKind};
use sc_entry::{ByteText, CacheMode, Items, NoMemory};
use sc_main_script::{LevelRule, RunRule};
use sc_model::{CCompilerKind, CompilerKind, LevelKind, LevelPolicy, Policy};
use std::alloc::Global;

/// The most bytes of the disk level.
const CAPACITY: u64 = 2000;

/// A level that may be written, holds nothing and refuses nothing.
fn level(alloc: Global, kind: LevelKind, capacity: u64) -> LevelRule
    ensures { result ≡ drawn.level kind capacity }
{
    LevelRule {
        kind,
        capacity,
        mode: CacheMode::ReadWrite,
        holds: Items::new(alloc),
        fails: Items::new(alloc),
    }
}

/// A disk level, and a remote one behind it.
pub fn levels(alloc: Global) -> Result<Items<LevelRule>, NoMemory>
    ensures { IfOk result (λ levels. levels ≡ drawn.levels) }
{
    let mut levels = Items::new(alloc);
    levels.push(level(alloc, LevelKind::Disk, CAPACITY))?;
    levels.push(level(alloc, LevelKind::Remote, 0))?;
    Ok(levels)
}

/// The first level is written before the answer, the second later.
pub fn policy(alloc: Global) -> Result<Policy, NoMemory>
    ensures { IfOk result (λ policy. policy ≡ drawn.policy) }
{
    let mut first = Items::new(alloc);
    first.push(LevelPolicy::Required)?;
    Ok(Policy::Levels(first))
}

/// The one compiler.
pub fn tools(alloc: Global) -> Result<Items<Tool>, NoMemory>
    ensures { IfOk result (λ tools. tools ≡ drawn.tool ∷ []) }
{
    let path = ByteText::from_slice(alloc, b"/cc")?;
    let mut tools = Items::new(alloc);
    tools.push(Tool {
        path,
        moment: 1,
        kind: ToolKind::Compiler(CompilerKind::C(CCompilerKind::Gcc)),
    })?;
    Ok(tools)
}

/// What the runs under this many keys answer.
pub fn runs(alloc: Global, count: u64) -> Result<Items<RunRule>, NoMemory>
    ensures { IfOk result (λ runs. runs ≡ drawn.runs count 0) }
{
    let mut runs = Items::new(alloc);
    let mut key = 0;
    while key < count {
        runs.push(run(alloc, key)?)?;
        key += 1;
    }
    Ok(runs)
}
