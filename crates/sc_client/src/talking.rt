//! What a client and a server say of one compile.
ghost use Rattle.std.specs.Prelude.{◌≤◌, ◌++◌, ◌∷◌, [], IfOk, OnOk};
ghost use Rattle.sc_entry.specs.Causes.{Told};
ghost use Rattle.sc_entry.specs.Streams.{WriteCause, WritesAll};
ghost use Rattle.sc_client.specs.Notes.{note_lines};
ghost use Rattle.sc_client.specs.Talking.{HeardBy, HearsOne, Listens, TalkedBy, Talks, notes_of};

use crate::connection::ServerConnection;
use crate::request_error::RequestError;
use sc_entry::{ByteText, Items, Sink, WriteError, write_all};
use sc_link::Link;
use sc_model::{CompileResponse, Request, Response};
use std::alloc::Global;

/// What came of a compile's request.
#[derive(Drop)]
pub(crate) enum Talk {
    /// No reply.
    Refused(RequestError),
    /// A reply other than that the compile was started.
    Answered(Response),
    /// It was started. These notifications came, each of which was written, and then another reply, or none.
    Started(Items<ByteText>, Result<Response, RequestError>),
}

/// What comes once a compile was started.
#[derive(Drop)]
pub(crate) enum Heard {
    Note(ByteText),
    Last(Result<Response, RequestError>),
}

/// The next that comes.
fn hear<K: Link + Drop>(connection: &mut ServerConnection<K>) -> Heard
    ensures heard { HearsOne connection.old result connection.new }
    ensures caused { HeardBy result connection.new }
    ensures later { connection.old.faults ≤ connection.new.faults }
{
    match connection.read_one_response() {
        Ok(Response::ArtifactNotification(note)) => Heard::Note(note),
        last => Heard::Last(last),
    }
}

/// Writes a notification at once, with a line feed.
fn show_note<E: Sink>(err: &mut E, note: &ByteText) -> Result<(), WriteError>
    ensures told { OnOk result (Told (WritesAll (note.now ++ 10 ∷ [])) (E.written err.old) (E.written err.new)) }
    ensures later { E.fault_count err.old ≤ E.fault_count err.new }
    ensures cause { WriteCause (E.fault_count err.old) (E.fault_count err.new) result }
{
    let mut line = note.try_clone()?;
    line.push(b'\n')?;
    write_all(err, line.as_slice())?;
    Ok(())
}

/// Writes the notifications that come, until something else does.
fn listen<K: Link + Drop, E: Sink>(
    alloc: Global,
    connection: &mut ServerConnection<K>,
    err: &mut E,
) -> Result<Talk, WriteError>
    ensures listens { IfOk result (λ talk. Listens connection.old talk connection.new) }
    ensures caused { IfOk result (λ talk. TalkedBy talk connection.new) }
    ensures told { IfOk result (λ talk. Told (WritesAll (note_lines (notes_of talk))) (E.written err.old) (E.written err.new)) }
    ensures later { (connection.old.faults ≤ connection.new.faults) × (E.fault_count err.old ≤ E.fault_count err.new) }
    ensures cause { WriteCause (E.fault_count err.old) (E.fault_count err.new) result }
{
    let mut notes = Items::new(alloc);
    for _round in 0..u64::MAX {
        match hear(connection) {
            Heard::Note(note) => {
                show_note(err, &note)?;
                notes.push(note)?;
            }
            Heard::Last(last) => return Ok(Talk::Started(notes, last)),
        }
    }
    // No memory holds so many notifications.
    Err(WriteError::NoMemory)
}

/// Asks for a compile, and hears what comes until that ends. Notifications are written as they come.
pub(crate) fn talk_of<K: Link + Drop, E: Sink>(
    alloc: Global,
    connection: &mut ServerConnection<K>,
    request: &Request,
    err: &mut E,
) -> Result<Talk, WriteError>
    ensures talks { IfOk result (λ talk. Talks request.now connection.old talk connection.new) }
    ensures caused { IfOk result (λ talk. TalkedBy talk connection.new) }
    ensures told { IfOk result (λ talk. Told (WritesAll (note_lines (notes_of talk))) (E.written err.old) (E.written err.new)) }
    ensures later { (connection.old.faults ≤ connection.new.faults) × (E.fault_count err.old ≤ E.fault_count err.new) }
    ensures cause { WriteCause (E.fault_count err.old) (E.fault_count err.new) result }
{
    match connection.request(request) {
        Err(refusal) => Ok(Talk::Refused(refusal)),
        Ok(Response::Compile(CompileResponse::CompileStarted)) => listen(alloc, connection, err),
        Ok(reply) => Ok(Talk::Answered(reply)),
    }
}
