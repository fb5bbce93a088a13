//! Compilers that are kept by path and moment.
ghost use Rattle.std.specs.Prelude.{◌≡◌, IfOk, OnErr, OnOk, List, None, Some, ℕ};
ghost use Rattle.sc_compile.specs.Kept.{Detects, Informs, Sets, Stays, entry_at, if_unchanged, kept_at};

use crate::probe::Probe;
use crate::tool::Detected;
use sc_entry::{ByteText, NoMemory, Text};
use sc_model::CompilerKind;
use std::alloc::Global;
use std::collections::BTreeMap;

/// A compiler that was found in a file.
#[derive(Clone, Copy)]
pub struct CompilerCacheEntry {
    pub kind: CompilerKind,
    /// When the file was changed.
    pub mtime: u64,
}

/// The compilers that were found, by path. One is found again where its file was not changed since. Contracts see what is kept
/// of each path.
#[derive(Drop)]
pub struct CompilerMap {
    kept: BTreeMap<ByteText, CompilerCacheEntry>,
}

impl CompilerCacheEntry {
    /// The compiler, where its file was changed at this moment and not since.
    fn if_unchanged(&self, mtime: u64) -> Option<CompilerKind>
        ensures { result ≡ if_unchanged mtime (Some self.now) }
    {
        if self.mtime == mtime {
            return Some(self.kind);
        }
        None
    }
}

impl CompilerMap {
    /// A map that keeps nothing.
    pub fn new(alloc: Global) -> CompilerMap
        ensures { (path : List ℕ) → entry_at result.kept path ≡ None }
    {
        CompilerMap {
            kept: BTreeMap::new(alloc),
        }
    }

    /// The compiler that is kept of a path's file, where it was changed at this moment and not since.
    fn kept_at(&self, path: &ByteText, mtime: u64) -> Option<CompilerKind>
        ensures { result ≡ kept_at self.now.kept path.now mtime }
    {
        match self.kept.get(path) {
            None => None,
            Some(entry) => entry.if_unchanged(mtime),
        }
    }

    fn keep(&mut self, path: &ByteText, entry: CompilerCacheEntry) -> Result<(), NoMemory>
        ensures kept { OnOk result (Sets path.now (Some entry) self.old.kept self.new.kept) }
        ensures same { OnErr result (Stays self.old.kept self.new.kept) }
    {
        let path = path.try_clone()?;
        self.kept.insert(path, entry)?;
        Ok(())
    }

    fn forget(&mut self, path: &ByteText)
        ensures { Sets path.now None self.old.kept self.new.kept }
    {
        let _forgotten = self.kept.remove(path);
    }

    /// Finds out which compiler a path's file is, which was changed at this moment, and keeps it.
    fn detect<P: Probe>(
        &mut self,
        alloc: Global,
        probe: &P,
        path: &ByteText,
        mtime: u64,
    ) -> Result<Detected, NoMemory>
        ensures found { IfOk result (λ found. Detects (P.table probe.now) mtime path.now found self.old.kept self.new.kept) }
        ensures same { OnErr result (Stays self.old.kept self.new.kept) }
    {
        match probe.detect(alloc, path)? {
            Detected::Compiler(kind) => {
                self.keep(path, CompilerCacheEntry { kind, mtime })?;
                Ok(Detected::Compiler(kind))
            }
            Detected::Refused(why) => {
                self.forget(path);
                Ok(Detected::Refused(why))
            }
        }
    }

    /// Which compiler the file at a path is, or why it is none. It is looked into only where it was changed since a compiler was
    /// found there; one that is no compiler any more is forgotten. Where memory ends, all is kept as before.
    pub fn compiler_info<P: Probe>(
        &mut self,
        alloc: Global,
        probe: &P,
        path: &ByteText,
    ) -> Result<Detected, NoMemory>
        ensures found { IfOk result (λ found. Informs (P.table probe.now) path.now found self.old.kept self.new.kept) }
        ensures same { OnErr result (Stays self.old.kept self.new.kept) }
    {
        let Some(mtime) = probe.moment(path) else {
            let why = Text::from_str(alloc, "compiler not found")?;
            return Ok(Detected::Refused(why));
        };
        if let Some(kind) = self.kept_at(path, mtime) {
            return Ok(Detected::Compiler(kind));
        }
        let found = self.detect(alloc, probe, path, mtime)?;
        Ok(found)
    }
}
