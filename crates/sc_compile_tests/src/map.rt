use sc_compile::{CompilerMap, Detected, Tool, ToolKind, ToolTable};
use sc_entry::ByteText;
use sc_model::{CCompilerKind, CompilerKind};
use std::alloc::Global;
use std::process::Abort;
use std::test::Fail;

const GCC: CompilerKind = CompilerKind::C(CCompilerKind::Gcc);

const RUST: CompilerKind = CompilerKind::Rust;

fn tool(alloc: Global, moment: u64, kind: ToolKind) -> Result<Tool, Fail> {
    let path = ByteText::from_slice(alloc, b"/cc")?;
    Ok(Tool { path, moment, kind })
}

/// A table of one tool at `/cc`.
fn table(alloc: Global, moment: u64, kind: ToolKind) -> Result<ToolTable, Fail> {
    let mut tools = Vec::new(alloc);
    tools.push(tool(alloc, moment, kind)?)?;
    Ok(ToolTable::new(alloc, tools, Vec::new(alloc))?)
}

/// The kind of compiler that was found, or none.
fn kind_of(found: &Detected) -> Option<CompilerKind> {
    match found {
        Detected::Compiler(kind) => Some(*kind),
        Detected::Refused(_) => None,
    }
}

fn found_kind(
    alloc: Global,
    map: &mut CompilerMap,
    tools: &ToolTable,
) -> Result<Option<CompilerKind>, Fail> {
    let path = ByteText::from_slice(alloc, b"/cc")?;
    let found = map.compiler_info(alloc, tools, &path)?;
    Ok(kind_of(&found))
}

/// The kind that is found where the file was changed at this moment, and is this now.
fn kind_at(
    alloc: Global,
    map: &mut CompilerMap,
    moment: u64,
    kind: ToolKind,
) -> Result<Option<CompilerKind>, Fail> {
    let tools = table(alloc, moment, kind)?;
    found_kind(alloc, map, &tools)
}

#[test]
fn a_compiler_is_kept_until_its_file_changes(rt: HostRuntime) -> Result<(), Fail> {
    let mut map = CompilerMap::new(rt.alloc());
    let cases = [
        (1, ToolKind::Compiler(GCC), Some(GCC)),
        (1, ToolKind::Compiler(RUST), Some(GCC)),
        (1, ToolKind::NotACompiler, Some(GCC)),
        (2, ToolKind::Compiler(RUST), Some(RUST)),
        (1, ToolKind::NotACompiler, None),
        (2, ToolKind::Compiler(GCC), Some(GCC)),
    ];
    for (moment, kind, expected) in cases {
        assert!(rt; kind_at(rt.alloc(), &mut map, moment, kind)? == expected);
    }
    Ok(())
}
