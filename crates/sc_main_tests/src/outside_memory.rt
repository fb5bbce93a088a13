//! What is read off variables, and an outside in memory.
use sc_entry::{ByteText, Calls, Items, MemFiles, NoMemory};
use sc_main_outside::{MakeError, MemOutside, Outside, Surroundings, surroundings_of};
use sc_model::Variable;
use std::alloc::Global;
use std::test::Fail;

fn bytes(alloc: Global, text: &str) -> Result<ByteText, NoMemory> {
    ByteText::from_slice(alloc, text.as_bytes())
}

fn variables(alloc: Global, pairs: &[(&str, &str)]) -> Result<Items<Variable>, NoMemory> {
    let mut variables = Items::new(alloc);
    for (name, value) in pairs {
        variables.push(Variable {
            name: bytes(alloc, name)?,
            value: bytes(alloc, value)?,
        })?;
    }
    Ok(variables)
}

/// What is around a program in the folder `/w`, with these variables.
fn around(alloc: Global, pairs: &[(&str, &str)]) -> Result<Surroundings, NoMemory> {
    let variables = variables(alloc, pairs)?;
    surroundings_of(alloc, bytes(alloc, "/w")?, variables, true, true)
}

/// Whether these are the folders that a `PATH` names.
fn has_folders(alloc: Global, path: &str, folders: &[&str]) -> Result<bool, NoMemory> {
    let found = around(alloc, &[("PATH", path)])?;
    let mut same = found.folders.len() == folders.len();
    for (folder, text) in found.folders.as_slice().iter().zip(folders) {
        same = same && folder.as_slice() == text.as_bytes();
    }
    Ok(same)
}

/// An empty part of `PATH` is the working folder, and one that isn't absolute is in it.
#[test]
fn search_folders(rt: HostRuntime) -> Result<(), Fail> {
    let alloc = rt.alloc();
    assert!(rt; has_folders(alloc, "/usr/bin:/bin", &["/usr/bin", "/bin"])?);
    assert!(rt; has_folders(alloc, ":bin:/b/", &["/w", "/w/bin", "/b/"])?);
    assert!(rt; has_folders(alloc, "", &["/w"])?);
    assert!(rt; around(alloc, &[("PATHS", "/bin")])?.folders.is_empty());
    Ok(())
}

/// Whether these variables set the flag, and make both terminals dumb.
fn flags_of(alloc: Global, pairs: &[(&str, &str)]) -> Result<(bool, bool), NoMemory> {
    let found = around(alloc, pairs)?;
    let (out, err) = (found.outlets.out, found.outlets.err);
    Ok((found.ignores_server_errors, out.is_dumb && err.is_dumb))
}

/// Of variables of one name the first holds; only the value `1` sets the flag, and only `dumb` makes terminals dumb.
#[test]
fn flags(rt: HostRuntime) -> Result<(), Fail> {
    const NAME: &str = "SCCACHE_IGNORE_SERVER_IO_ERROR";
    let alloc = rt.alloc();
    let one = flags_of(alloc, &[(NAME, "1"), (NAME, "0"), ("TERM", "dumb")])?;
    assert!(rt; one == (true, true));
    let none = flags_of(alloc, &[(NAME, "11"), ("TERM", "xterm")])?;
    assert!(rt; none == (false, false));
    Ok(())
}

/// An outside without parts that is to refuse its second call.
fn refusing_once(alloc: Global) -> Result<MemOutside, NoMemory> {
    let mut numbers = Items::new(alloc);
    numbers.push(2)?;
    let cwd = bytes(alloc, "/w")?;
    let calls = Calls::failing_at(alloc, numbers)?;
    Ok(MemOutside::new(alloc, cwd, Items::new(alloc), calls))
}

fn add_files(alloc: Global, outside: &mut MemOutside) -> Result<(), NoMemory> {
    let files = MemFiles::new(alloc, Calls::new(alloc));
    outside.files.push_back(files)
}

/// Whether files are refused, and how many refusals stand then.
fn is_refused<X: Outside>(outside: &mut X) -> (bool, u64) {
    let refused = matches!(outside.files(), Err(MakeError::MakeFault));
    (refused, outside.faults())
}

/// Whether two are given, and the second call and the last are refused.
fn gives_two<X: Outside>(outside: &mut X) -> bool {
    let first = is_refused(outside) == (false, 0) && is_refused(outside) == (true, 1);
    first && is_refused(outside) == (false, 1) && is_refused(outside) == (true, 2)
}

fn is_in<X: Outside>(outside: &mut X, folder: &[u8]) -> Result<bool, MakeError> {
    let found = outside.surroundings()?;
    Ok(found.cwd.as_slice() == folder)
}

/// Parts are given until none is left; a refused call takes none, and is counted.
#[test]
fn parts(rt: HostRuntime) -> Result<(), Fail> {
    let mut outside = refusing_once(rt.alloc())?;
    add_files(rt.alloc(), &mut outside)?;
    add_files(rt.alloc(), &mut outside)?;
    assert!(rt; gives_two(&mut outside) && is_in(&mut outside, b"/w")?);
    Ok(())
}
