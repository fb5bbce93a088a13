//! What a stop at any call of a disk leaves of a store of files, and what a store is that is opened on it.
//!
//! A disk tells its changes, and a stop leaves the files after some of them, the oldest first, with a front of the bytes of
//! an append that was under way. These laws say it of each call of a store by what the call's clauses say.
//!
//! A store of two folders is seen as one store of the keys of both parts, so what is said of a stop and an opening holds for
//! both parts together; one law says it for each part by itself: of its own keys and files.
#![tactic(auto)]

ghost use Rattle.sc_disk_reopen.specs.Openings.{ReopensOpening, ReopensRefusedOpening, StopsOpening, StopsRefusedOpening};
ghost use Rattle.sc_disk_reopen.specs.Reopening.{ReopensBetween, ReopensInside};
ghost use Rattle.sc_disk_reopen.specs.Resuming.{ReopensParts, ReopensPartsInside};
ghost use Rattle.sc_disk_reopen.specs.Stops.{StopsAbandoning, StopsCommitting, StopsFilling, StopsGetting, StopsInserting, StopsPreparing, StopsRefusingBytes, StopsRefusingFile, StopsRefusingToAdd, StopsRefusingToCommit, StopsRefusingToGet, StopsRefusingWritten, StopsRemoving, StopsStill, StopsWriting};

use sc_disk::FileWriter;

/// At each moment inside a call the files that are no temporaries are those of the call's start, less its removals and with
/// its use and its rename so far, and they take at most the capacity.
pub fn stops()
    ensures preparing { StopsPreparing }
    ensures refusing_to_add { StopsRefusingToAdd }
    ensures filling { StopsFilling }
    ensures writing { StopsWriting }
    ensures committing { StopsCommitting }
    ensures refusing_to_commit { StopsRefusingToCommit }
    ensures abandoning { StopsAbandoning }
    ensures inserting { StopsInserting }
    ensures refusing_bytes { StopsRefusingBytes }
    ensures refusing_file { StopsRefusingFile }
    ensures getting { StopsGetting }
    ensures refusing_to_get { StopsRefusingToGet }
    ensures removing { StopsRemoving }
    ensures still { StopsStill }
{}

/// The same of a call that stores what its caller writes, where it is refused.
pub fn stops_of_writer<F: FileWriter>()
    ensures { (f : F) → StopsRefusingWritten (F.wrote f) }
{}

/// At each moment inside an opening the files are those that stood there, less its removals so far.
pub fn stops_of_opening()
    ensures opening { StopsOpening }
    ensures refused { StopsRefusedOpening }
{}

/// A store is opened on a disk that tells, calls follow, with any overlapping of open entries, and a stop comes. A store of
/// the same capacity that is opened then indexes just the files that the first opening indexed or a call stored, and that
/// weren't removed or replaced since, each whole, by their moments, then by their paths. It evicts nothing, and leaves no
/// temporary.
pub fn reopens()
    ensures between { ReopensBetween }
    ensures inside { ReopensInside }
{}

/// A first opening was stopped at some moment, or refused and then stopped. A second one indexes what the first would have:
/// of the files that stood before it those that an opening keeps, the most recently used ones that fit.
pub fn reopens_opening()
    ensures opening { ReopensOpening }
    ensures refused { ReopensRefusedOpening }
{}

/// A store of two folders is opened on disks that tell, calls follow, with any overlapping of open entries of both parts, and
/// a stop comes. A store of the same capacity that is opened then indexes in each part just the files that the first opening
/// indexed there or a call stored there, and that weren't removed or replaced since, each whole; the part's folder has these
/// files and no others.
///
/// What `PairCache::new` and `PairCache::keeps` ensure is what is asked of the second store.
pub fn reopens_parts()
    ensures between { ReopensParts }
    ensures inside { ReopensPartsInside }
{}
