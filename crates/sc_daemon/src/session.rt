//! A daemon that serves one connection after the other.
ghost use Rattle.std.specs.Prelude.{◌≡◌, [], true, false, IfOk, OnErr, OnOk};
ghost use Rattle.sc_wire_conn.specs.Ends.{end_of};
ghost use Rattle.sc_daemon.specs.Daemons.{BacksEvent, IsIdleDaemon, ServesEvent, anew, passed};
ghost use Rattle.sc_daemon.specs.Drives.{line_end};
ghost use Rattle.sc_daemon.specs.Lines.{IsDone, new_line};
ghost use Rattle.sc_daemon.specs.Sessions.{Feeds};

use crate::conn::{Conn, discard_conn};
use crate::daemon::Daemon;
use sc_daemon_owned::Parts;
use sc_entry::{ByteText, NoMemory};
use sc_model::{Event, Owner, What};
use sc_wire_conn::End;
use std::alloc::Global;
use std::marker::Model;

/// A daemon, and the one connection that it serves, which makes way for the next. Contracts see both, and whether memory ran out
/// within an action: then it answers that to each further action, since what the action had taken can't be given back.
#[derive(Drop)]
pub struct Session<P: Parts> {
    daemon: Daemon<P>,
    conn: Conn,
    lost: bool,
}

impl<P: Parts> Model for Session<P> {
    ghost use Rattle.std.specs.Prelude.{◌≡◌, false};
    ghost use Rattle.sc_daemon.specs.Sessions.{IsServing, Session as Held, session_code};

    ghost Value = { Held };

    ghost coded = { session_code };

    ghost view = { λ s. record { daemon = s.daemon; line = s.conn; lost = s.lost } };

    ghost invariant = { λ s. s.lost ≡ false → IsServing s.daemon s.conn };
}

impl<P: Parts> Session<P> {
    /// An idle daemon, and a connection that nothing came over. The writes that it hands on are numbered from 0.
    pub fn new(alloc: Global, daemon: Daemon<P>) -> Session<P>
        requires { IsIdleDaemon daemon }
        ensures daemon { result.daemon ≡ anew daemon }
        ensures line { result.line ≡ new_line daemon.state.config.limit }
        ensures lost { result.lost ≡ false }
    {
        let mut daemon = daemon;
        daemon.number_anew();
        let conn = Conn::new(alloc, daemon.limit());
        Session {
            daemon,
            conn,
            lost: false,
        }
    }

    /// The daemon.
    pub fn daemon(&self) -> &Daemon<P>
        ensures { result.now ≡ self.now.daemon }
    {
        &self.daemon
    }

    /// Whether memory ran out within an action.
    pub fn is_lost(&self) -> bool
        ensures { result ≡ self.now.lost }
    {
        self.lost
    }

    /// Whether nothing more is read of the connection: it was closed, its bytes spell no request, or a reply was too long.
    pub fn is_over(&self) -> bool
        ensures yes { result ≡ true → IsDone self.now.line }
        ensures no { result ≡ false → IsDone self.now.line → ⊥ }
    {
        self.conn.is_done()
    }

    /// What the connection has come to.
    pub fn end(&self) -> End
        ensures { end_of result ≡ line_end self.now.line }
    {
        self.conn.end()
    }

    /// Puts a connection that nothing came over in the place of the one that was served. A request of that which isn't over is
    /// dropped with what it holds: serve it to its end before.
    pub fn renew(&mut self, alloc: Global)
        ensures daemon { self.new.daemon ≡ self.old.daemon }
        ensures line { self.new.line ≡ new_line self.old.daemon.state.config.limit }
        ensures lost { self.new.lost ≡ self.old.lost }
    {
        let next = Conn::new(alloc, self.daemon.limit());
        discard_conn(std::mem::replace(&mut self.conn, next));
    }

    /// Takes a piece of what comes over the connection. Where nothing more is read, it changes nothing. Where memory runs out,
    /// the connection makes way for one that nothing came over.
    pub fn feed(&mut self, alloc: Global, piece: &[u8]) -> Result<(), NoMemory>
        ensures feeds { OnOk result (Feeds piece.now self.old.line self.new.line) }
        ensures dropped { OnErr result (self.new.line ≡ new_line self.old.daemon.state.config.limit) }
        ensures daemon { self.new.daemon ≡ self.old.daemon }
        ensures lost { self.new.lost ≡ self.old.lost }
    {
        let lost = self.lost;
        self.lost = true;
        match self.conn.feed(alloc, piece) {
            Ok(()) => {
                self.lost = lost;
                Ok(())
            }
            Err(refused) => {
                self.renew(alloc);
                self.lost = lost;
                Err(refused)
            }
        }
    }

    /// No more bytes come over the connection.
    pub fn shut(&mut self)
        ensures { self.new ≡ record self.old { line = record self.old.line { closed = true } } }
    {
        self.conn.shut();
    }

    /// Does the action that is due of the connection's first request, where one is: its event.
    pub fn serve(&mut self, alloc: Global) -> Result<Event, NoMemory>
        ensures serves { IfOk result (λ event. ServesEvent 0 event self.old.daemon self.new.daemon self.old.line self.new.line) }
        ensures stays { IfOk result (λ _. (self.old.lost ≡ false) × (self.new.lost ≡ false)) }
    {
        let lost = self.lost;
        self.lost = true;
        if lost {
            return Err(NoMemory);
        }
        let event = self.daemon.serve(alloc, 0, &mut self.conn)?;
        self.lost = false;
        Ok(event)
    }

    /// Does the next event of the handed write at this place among those that are left, where there is one.
    pub fn back(&mut self, alloc: Global, place: u64) -> Result<Event, NoMemory>
        ensures backs { IfOk result (λ event. BacksEvent place event self.old.daemon self.new.daemon) }
        ensures line { self.new.line ≡ self.old.line }
        ensures stays { IfOk result (λ _. (self.old.lost ≡ false) × (self.new.lost ≡ false)) }
    {
        let lost = self.lost;
        self.lost = true;
        if lost {
            return Err(NoMemory);
        }
        let event = self.daemon.back(alloc, place)?;
        self.lost = false;
        Ok(event)
    }

    /// Lets time pass.
    pub fn pass(&mut self, nanoseconds: u64) -> Event
        ensures session { self.new ≡ record self.old { daemon = passed self.old.daemon nanoseconds } }
        ensures event { result ≡ record { moment = self.new.daemon.state.world.moment; owner = Owner.Nobody; what = What.Passed nanoseconds } }
    {
        self.daemon.pass(nanoseconds)
    }

    /// Takes out the bytes that were sent; all else stays.
    pub fn take_sent(&mut self, alloc: Global) -> ByteText
        ensures sent { result ≡ self.old.line.out }
        ensures left { self.new ≡ record self.old { line = record self.old.line { out = [] } } }
    {
        self.conn.take_sent(alloc)
    }
}
