//! The command that compiles.
ghost use Rattle.std.specs.Prelude.{◌≡◌, ◌≤◌, ℕ, ℤ, Result};
ghost use Rattle.sc_client.specs.Conversations.{beginning};
ghost use Rattle.sc_client.specs.Local.{KeepsPlan, Ran, RunsOne, local_words};
ghost use Rattle.sc_client.specs.declared.client_error.ClientError.{ClientError as Refused};
ghost use Rattle.sc_entry.specs.Causes.{Rose, Told};
ghost use Rattle.sc_entry.specs.Streams.{WritesAll};
ghost use Rattle.sc_main_client.specs.Compiling.{CompileEnds, CompilesBy, CompilesOver, DoesCompile, Makes, MakesParts};
ghost use Rattle.sc_main_client.specs.Connecting.{Connects};

use crate::connecting::{connection, of_make};
use crate::failing::fail;
use sc_client::{ClientError, ServerConnection, do_compile};
use sc_command::{Client, CommandCreator};
use sc_compile::Probe;
use sc_entry::{ByteText, Sink};
use sc_link::Link;
use sc_main_outside::{MakeError, Outside, Surroundings};
use sc_main_report::Ended;
use sc_wire_address::SocketAddr;
use std::alloc::Global;

/// How many commands a client may run at once: the one of its compile.
const LOCAL_TOKENS: u64 = 1;

/// What a compile is done with.
#[derive(Drop)]
pub struct CompileParts<P, T> {
    /// What is around the client.
    pub around: Surroundings,
    /// What finds the compiler.
    pub probe: P,
    /// What makes the command of a compile that is done here.
    pub creator: T,
}

/// What a compile is done with, from what is outside.
fn make_parts<X: Outside>(outside: &mut X) -> Result<CompileParts<X::Probe, X::Creator>, MakeError>
    ensures makes { Makes (X.around outside.old) (X.fault_count outside.old) (X.fault_count outside.new) result }
    ensures same { X.around outside.new ≡ X.around outside.old }
    ensures later { X.fault_count outside.old ≤ X.fault_count outside.new }
{
    let alloc = outside.alloc();
    let around = outside.surroundings()?;
    let probe = outside.probe()?;
    let client = Client::new(alloc, LOCAL_TOKENS)?;
    let creator = outside.creator(&client)?;
    Ok(CompileParts {
        around,
        probe,
        creator,
    })
}

fn parts<X: Outside>(outside: &mut X) -> Result<CompileParts<X::Probe, X::Creator>, ClientError>
    ensures makes { MakesParts (X.around outside.old) (X.fault_count outside.old) (X.fault_count outside.new) result }
    ensures same { X.around outside.new ≡ X.around outside.old }
    ensures later { X.fault_count outside.old ≤ X.fault_count outside.new }
{
    match make_parts(outside) {
        Ok(parts) => Ok(parts),
        Err(error) => Err(of_make(error)),
    }
}

/// Compiles over a connection with these parts.
fn compile_with<P: Probe, T: CommandCreator, K: Link + Drop, O: Sink, E: Sink>(
    alloc: Global,
    parts: &mut CompileParts<P, T>,
    connection: &mut ServerConnection<K>,
    exe: &ByteText,
    words: &[ByteText],
    out: &mut O,
    err: &mut E,
) -> Result<i32, ClientError>
where
    T::Cmd: Drop,
    ensures { DoesCompile P.table (λ found cwd collected t t2 gave. RunsOne (KeepsPlan T.Cmd.plan) (Ran T.Cmd.gives T.Cmd.plan T.Cmd.arguments T.Cmd.setting T.Cmd.C.content found (local_words words.now) cwd collected) (T.queue t) gave (T.queue t2))
        T.fault_count exe.now words.now (record { out = O.written out.old; now_out = O.written out.new; err = E.written err.old; now_err = E.written err.new }) (O.fault_count out.old) (O.fault_count out.new) (E.fault_count err.old) (E.fault_count err.new)
        parts.old parts.new.creator connection.old connection.new result }
{
    do_compile(
        alloc,
        &mut parts.creator,
        &parts.probe,
        connection,
        exe,
        words,
        &parts.around.cwd,
        parts.around.folders.as_slice(),
        parts.around.variables.as_slice(),
        parts.around.ignores_server_errors,
        &parts.around.outlets,
        out,
        err,
    )
}

/// Compiles over a connection, once the parts are made.
fn compile_over<X: Outside, K: Link + Drop, O: Sink, E: Sink>(
    outside: &mut X,
    connection: &mut ServerConnection<K>,
    exe: &ByteText,
    words: &[ByteText],
    out: &mut O,
    err: &mut E,
) -> Result<i32, ClientError>
where
    <X::Creator as CommandCreator>::Cmd: Drop,
    ensures by { CompilesBy (MakesParts (X.around outside.old) (X.fault_count outside.old) (X.fault_count outside.new))
        (DoesCompile X.Probe.table (λ found cwd collected t t2 gave. RunsOne (KeepsPlan X.Creator.Cmd.plan) (Ran X.Creator.Cmd.gives X.Creator.Cmd.plan X.Creator.Cmd.arguments X.Creator.Cmd.setting X.Creator.Cmd.C.content found (local_words words.now) cwd collected) (X.Creator.queue t) gave (X.Creator.queue t2))
        X.Creator.fault_count exe.now words.now (record { out = O.written out.old; now_out = O.written out.new; err = E.written err.old; now_err = E.written err.new }) (O.fault_count out.old) (O.fault_count out.new) (E.fault_count err.old) (E.fault_count err.new))
        ((out.new ≡ out.old) × (err.new ≡ err.old)) connection.old result }
    ensures same { X.around outside.new ≡ X.around outside.old }
    ensures later { X.fault_count outside.old ≤ X.fault_count outside.new }
{
    let alloc = outside.alloc();
    let mut parts = parts(outside)?;
    compile_with(alloc, &mut parts, connection, exe, words, out, err)
}

/// Has the server at an address compile, or compiles here.
fn compile<X: Outside, O: Sink, E: Sink>(
    outside: &mut X,
    addr: &SocketAddr,
    exe: &ByteText,
    words: &[ByteText],
    out: &mut O,
    err: &mut E,
) -> Result<i32, ClientError>
where
    <X::Creator as CommandCreator>::Cmd: Drop,
    ensures over { (between : ℕ) × (between ≤ X.fault_count outside.new) × CompilesOver (Connects addr.now X.Connector.asked X.Connector.links X.Connector.fault_count (λ link. beginning (X.Connector.Link.ahead link) (X.Connector.Link.written link) (X.Connector.Link.fault_count link)) (X.fault_count outside.old) between)
        (CompilesBy (MakesParts (X.around outside.old) between (X.fault_count outside.new))
        (DoesCompile X.Probe.table (λ found cwd collected t t2 gave. RunsOne (KeepsPlan X.Creator.Cmd.plan) (Ran X.Creator.Cmd.gives X.Creator.Cmd.plan X.Creator.Cmd.arguments X.Creator.Cmd.setting X.Creator.Cmd.C.content found (local_words words.now) cwd collected) (X.Creator.queue t) gave (X.Creator.queue t2))
        X.Creator.fault_count exe.now words.now (record { out = O.written out.old; now_out = O.written out.new; err = E.written err.old; now_err = E.written err.new }) (O.fault_count out.old) (O.fault_count out.new) (E.fault_count err.old) (E.fault_count err.new))
        ((out.new ≡ out.old) × (err.new ≡ err.old))) ((out.new ≡ out.old) × (err.new ≡ err.old)) result }
    ensures same { X.around outside.new ≡ X.around outside.old }
    ensures later { X.fault_count outside.old ≤ X.fault_count outside.new }
{
    let mut connection = connection(outside, addr)?;
    compile_over(outside, &mut connection, exe, words, out, err)
}

/// The end of a compile, with a line on standard error where there is no compiler.
fn end_of<E: Sink>(alloc: Global, err: &mut E, came: &Result<i32, ClientError>) -> Ended
    ensures { CompileEnds (λ text. Told (WritesAll text) (E.written err.old) (E.written err.new)) (Rose (E.fault_count err.old) (E.fault_count err.new)) (err.new ≡ err.old) came.now result }
{
    match came {
        Ok(status) => Ended::Status(*status),
        Err(error) => fail(alloc, err, error),
    }
}

/// Has the server at an address compile by a compiler, which is looked for here, with these words, and shows what that printed; where
/// the server doesn't compile it, compiles here. The end is the compile's status. `Status(1)` where there is no such compiler, here or
/// for the server, which standard error is told; `LinkFault` where the server can't be asked or the command can't be run, and
/// `Unexpected` where the server answers something else.
pub fn run_compile<X: Outside, O: Sink, E: Sink>(
    outside: &mut X,
    addr: &SocketAddr,
    exe: &ByteText,
    words: &[ByteText],
    out: &mut O,
    err: &mut E,
) -> Ended
where
    <X::Creator as CommandCreator>::Cmd: Drop,
    ensures ends { (came : Result ℤ Refused) × ((shown : E) × ((between : ℕ) × (between ≤ X.fault_count outside.new) × CompilesOver (Connects addr.now X.Connector.asked X.Connector.links X.Connector.fault_count (λ link. beginning (X.Connector.Link.ahead link) (X.Connector.Link.written link) (X.Connector.Link.fault_count link)) (X.fault_count outside.old) between)
        (CompilesBy (MakesParts (X.around outside.old) between (X.fault_count outside.new))
        (DoesCompile X.Probe.table (λ found cwd collected t t2 gave. RunsOne (KeepsPlan X.Creator.Cmd.plan) (Ran X.Creator.Cmd.gives X.Creator.Cmd.plan X.Creator.Cmd.arguments X.Creator.Cmd.setting X.Creator.Cmd.C.content found (local_words words.now) cwd collected) (X.Creator.queue t) gave (X.Creator.queue t2))
        X.Creator.fault_count exe.now words.now (record { out = O.written out.old; now_out = O.written out.new; err = E.written err.old; now_err = E.written shown }) (O.fault_count out.old) (O.fault_count out.new) (E.fault_count err.old) (E.fault_count shown))
        ((out.new ≡ out.old) × (shown ≡ err.old))) ((out.new ≡ out.old) × (shown ≡ err.old)) came)
        × CompileEnds (λ text. Told (WritesAll text) (E.written shown) (E.written err.new)) (Rose (E.fault_count shown) (E.fault_count err.new)) (err.new ≡ shown) came result) }
    ensures same { X.around outside.new ≡ X.around outside.old }
    ensures later { X.fault_count outside.old ≤ X.fault_count outside.new }
{
    let alloc = outside.alloc();
    let came = compile(outside, addr, exe, words, out, err);
    let ended = end_of(alloc, err, &came);
    drop(came);
    ended
}
