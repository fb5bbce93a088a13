ghost use Rattle.std.specs.Prelude.{◌≡◌, ◌⊎◌, None, IfOk};
ghost use Rattle.std.specs.Str.{IsUtf8};
ghost use Rattle.sc_compile.specs.declared.key_line.KeyLine.{KeyLine};
ghost use Rattle.sc_compile.specs.declared.tool.Tool.{Tool};
ghost use Rattle.sc_compile.specs.declared.tool.Detected.TheVariants as detected;
ghost use Rattle.sc_host_probe.specs.Kinds.{DetectsAt, kind_of, not_found};

use crate::kinds::kind_of;
use sc_compile::{Detected, KeyRefusal, Probe};
use sc_entry::{ByteText, NoMemory, Text};
use std::alloc::Global;
use std::fs;
use std::fs::Metadata;
use std::time::SystemTime;

/// What finds compilers among the files of the host. It tells nothing: what stands at a path is trusted.
///
/// A compiler is a regular file, at the path itself or behind links; a folder is none. A path that isn't UTF-8 has no file.
#[derive(Drop)]
pub struct HostProbe<R> {
    rt: R,
}

impl<R> HostProbe<R> {
    pub fn new(rt: R) -> HostProbe<R> {
        HostProbe { rt }
    }
}

/// When a file was changed, in nanoseconds since 1970: 0 before that, and at the end of `u64` where it is later.
fn changed(metadata: &Metadata) -> Option<u64> {
    match metadata
        .modified()
        .ok()?
        .duration_since(SystemTime::UNIX_EPOCH)
    {
        Ok(since) => Some(u64::try_from(since.as_nanos()).unwrap_or(u64::MAX)),
        Err(_) => Some(0),
    }
}

/// When the regular file at a path was changed, where there is one.
fn moment_at<R: fs::Files>(rt: &R, path: &str) -> Option<u64> {
    let metadata = fs::metadata(rt, path).ok()?;
    if !metadata.is_file() {
        return None;
    }
    changed(&metadata)
}

impl<R: fs::Files> HostProbe<R> {
    /// When the file at a path was changed, where there is one.
    fn moment_of(&self, path: &ByteText) -> Option<u64>
        ensures { IsUtf8 path.now ⊎ (result ≡ None) }
    {
        match str::from_utf8(path.as_slice()) {
            Ok(path) => moment_at(&self.rt, path),
            Err(_) => None,
        }
    }
}

/// What stands at a path, by when it was changed.
fn detected(alloc: Global, path: &ByteText, moment: Option<u64>) -> Result<Detected, NoMemory>
    ensures { IfOk result (DetectsAt path.now moment) }
{
    match moment {
        Some(_) => Ok(Detected::Compiler(kind_of(path.as_slice()))),
        None => {
            let why = Text::from_str(alloc, "compiler not found")?;
            Ok(Detected::Refused(why))
        }
    }
}

impl<R: fs::Files> Probe for HostProbe<R> {
    ghost table = { λ _. None };

    ghost keys = { λ _. None };

    /// When the file at a path was changed, in nanoseconds since 1970: 0 before that, and at the end of `u64` where it is
    /// later.
    fn moment(&self, path: &ByteText) -> Option<u64>
        ensures told { Unit {0} }

        // A path that isn't UTF-8 has no file.
        ensures text { IsUtf8 path.now ⊎ (result ≡ None) }
    {
        self.moment_of(path)
    }

    fn detect(&self, alloc: Global, path: &ByteText) -> Result<Detected, NoMemory>
        ensures told { IfOk result (λ _. Unit {0}) }

        // A compiler's kind is read off its path.
        ensures kind { IfOk result (λ found. (found ≡ detected.Compiler (kind_of path.now)) ⊎ (found ≡ not_found)) }
        ensures text { IfOk result (λ found. IsUtf8 path.now ⊎ (found ≡ not_found)) }
    {
        let moment = self.moment_of(path);
        detected(alloc, path, moment)
    }

    /// None: its compilers give a key wherever their words have one.
    fn refusal(&self, _alloc: Global, _key: &Text) -> Result<Option<KeyRefusal>, NoMemory>
        ensures told { IfOk result (λ _. Unit {0}) }
        ensures none { IfOk result (λ refusal. refusal ≡ None) }
    {
        Ok(None)
    }
}
