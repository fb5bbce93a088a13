//! A connection: what comes over it, the request that is served, and what was sent.
ghost use Rattle.std.specs.Prelude.{◌≡◌, ◌+◌, ◌<◌, ◌≤◌, ◌^◌, false, true, [], Some, length, take, drop, IfOk, OnOk};
ghost use Rattle.sc_daemon_action.specs.Hands.{ServesWith};
ghost use Rattle.sc_wire_conn.specs.Ends.{end_of};
ghost use Rattle.sc_daemon.specs.Lines.{IsDone, asker_at, conn_of, new_line};
ghost use Rattle.sc_daemon.specs.Sessions.{Feeds};
ghost use Rattle.sc_daemon.specs.Standings.{Rests, standing_of};
ghost use Rattle.sc_daemon.specs.Turns.{ActsFirst_or_none, IsIdleLine, MovesFirst, MovesHold, Reads, ServesLine, TakesMore};
ghost use Rattle.sc_daemon.specs.declared.standing.Standing.TheVariants.{Ended, Takes};
ghost use Rattle.sc_model.specs.Conns.{current, long_after, outcome_after, reserved_after, settle};
ghost use Rattle.sc_model.specs.Trace.{if_too_long};
ghost use Rattle.sc_wire.specs.Streams.{request_reader};

use crate::reading::Reading;
use crate::standing::{Standing, standing_at};
use crate::waiting::Waiting;
use sc_daemon_action::{Action, act};
use sc_daemon_hold::Hold;
use sc_daemon_job::{Origin, Since};
use sc_disk::LruDiskCacheAddEntry;
use sc_entry::{ByteText, NoMemory};
use sc_model::{Phase, What, Written};
use sc_wire_conn::{End, Inbox};
use std::alloc::Global;
use std::marker::Model;

/// A connection. Contracts see its requests that are not over, the bytes that spell none yet, where the first request
/// stands, and what was sent.
#[derive(Drop)]
pub struct Conn {
    inbox: Inbox,
    waiting: Waiting,
    at: u64,
    phase: Phase,
    entry: Option<LruDiskCacheAddEntry>,
    last: u64,
    outcome: u64,
    reserved: u64,
    out: Vec<u8>,
    long: Option<u64>,
}

impl Model for Conn {
    ghost use Rattle.std.specs.Prelude.{◌+◌, ◌≤◌, length};
    ghost use Rattle.sc_daemon.specs.Lines.{Line, line_code};

    ghost Value = { Line };

    ghost coded = { line_code };

    ghost view = { λ c. record {
      limit = c.inbox.limit;
      waiting = c.waiting;
      rest = c.inbox.rest;
      got = c.inbox.got;
      closed = c.inbox.closed;
      at = c.at;
      phase = c.phase;
      entry = c.entry;
      last = c.last;
      outcome = c.outcome;
      reserved = c.reserved;
      out = c.out.items;
      long = c.long;
    } };

    /// Each request took a byte at least.
    ghost invariant = { λ c. c.at + length c.waiting + length c.inbox.rest ≤ c.inbox.got };
}

/// The next piece of an input: at most so many bytes.
fn next_piece(input: &[u8], got: usize, count: u64) -> &[u8]
    requires { got < length input.now }
    ensures { result.now ≡ take count (drop got input.now) }
{
    let left = &input[got..];
    if count < left.len() as u64 {
        &left[..count as usize]
    } else {
        left
    }
}

/// Drops a connection in a call of its own: dropped where it is used it takes the check minutes.
pub(crate) fn discard_conn(conn: Conn) {
    drop(conn);
}

impl Conn {
    /// Nothing came yet.
    pub fn new(alloc: Global, limit: u32) -> Conn
        ensures { result ≡ new_line limit }
    {
        Conn {
            inbox: Inbox::new(alloc, limit),
            waiting: Waiting::new(alloc),
            at: 0,
            phase: Phase::AtBegin,
            entry: None,
            last: 0,
            outcome: 0,
            reserved: 0,
            out: Vec::new(alloc),
            long: None,
        }
    }

    /// The number of the first request among all of the connection.
    pub fn at(&self) -> u64
        ensures { result ≡ self.now.at }
    {
        self.at
    }

    /// The moment of its last event.
    pub fn last(&self) -> u64
        ensures { result ≡ self.now.last }
    {
        self.last
    }

    /// The moment of its last reservation.
    pub fn reserved(&self) -> u64
        ensures { result ≡ self.now.reserved }
    {
        self.reserved
    }

    /// Whether a reply was too long.
    fn has_ended(&self) -> bool
        ensures yes { result ≡ true → (0 < length self.now.waiting) × (standing_of self.now.phase ≡ Ended) }
        ensures no { result ≡ false → (0 < length self.now.waiting) × (standing_of self.now.phase ≡ Ended) → ⊥ }
    {
        match standing_at(&self.phase) {
            Standing::Ended => !self.waiting.is_empty(),
            Standing::Goes => false,
            Standing::Takes => false,
            Standing::Over => false,
        }
    }

    /// Whether nothing more is read.
    pub(crate) fn is_done(&self) -> bool
        ensures yes { result ≡ true → IsDone self.now }
        ensures no { result ≡ false → IsDone self.now → ⊥ }
    {
        self.inbox.is_over() || self.has_ended()
    }

    /// Takes a piece of the stream.
    fn take_piece(&mut self, alloc: Global, piece: &[u8]) -> Result<(), NoMemory>
        requires { self.old.got + length piece.now < 2 ^ 64 }
        ensures { OnOk result (TakesMore piece.now self.old self.new) }
    {
        let took = self.waiting.take(alloc, &mut self.inbox, piece);
        if took.is_err() {
            self.waiting = Waiting::new(alloc);
        }
        took
    }

    /// Takes a piece of the stream, where more is read.
    pub(crate) fn feed(&mut self, alloc: Global, piece: &[u8]) -> Result<(), NoMemory>
        ensures { OnOk result (Feeds piece.now self.old self.new) }
    {
        if self.is_done() {
            return Ok(());
        }
        if self.inbox.got().checked_add(piece.len() as u64).is_none() {
            return Err(NoMemory);
        }
        self.take_piece(alloc, piece)
    }

    /// No more bytes come.
    pub(crate) fn shut(&mut self)
        ensures { self.new ≡ record self.old { closed = true } }
    {
        self.inbox.shut();
    }

    /// Reads at most so many bytes of the input.
    pub fn read(&mut self, alloc: Global, input: &[u8], count: u64) -> Result<Reading, NoMemory>
        ensures { IfOk result (λ reading. Reads input.now count reading self.old self.new) }
    {
        if count == 0 || self.is_done() {
            return Ok(Reading::Nothing);
        }
        let got = self.inbox.got();
        if input.len() as u64 <= got {
            self.inbox.shut();
            return Ok(Reading::Closed);
        }
        let piece = next_piece(input, got as usize, count);
        self.take_piece(alloc, piece)?;
        let bytes = ByteText::from_slice(alloc, piece)?;
        Ok(Reading::Taken(bytes))
    }

    /// Whether there is nothing to serve: no request waits, a reply was too long, or a token is waited for.
    fn is_idle(&self, free: u64) -> bool
        ensures yes { result ≡ true → IsIdleLine free self.now }
        ensures some { result ≡ false → 0 < length self.now.waiting }
        ensures goes { result ≡ false → (standing_of self.now.phase ≡ Ended) → ⊥ }
        ensures token { result ≡ false → standing_of self.now.phase ≡ Takes → 0 < free }
    {
        if self.waiting.is_empty() {
            return true;
        }
        match standing_at(&self.phase) {
            Standing::Ended => true,
            Standing::Takes => free == 0,
            Standing::Goes => false,
            Standing::Over => false,
        }
    }

    /// Keeps what an event of the served request tells.
    fn note_event(&mut self, moment: u64, what: &What)
        ensures { self.new ≡ record self.old { last = moment; outcome = outcome_after self.old.outcome moment what.now; reserved = reserved_after self.old.reserved moment what.now; long = long_after self.old.long what.now } }
    {
        self.last = moment;
        match what {
            What::Outcome(_, _) => self.outcome = moment,
            What::TooLong(size) => self.long = Some(*size),
            What::Reserved(_, _, _, Written::Done) => self.reserved = moment,
            _ => {}
        }
    }

    /// The served request stands at the next phase, with this entry; one that is over makes way for the next.
    fn move_to(&mut self, phase: Phase, entry: Option<LruDiskCacheAddEntry>)
        requires { 0 < length self.old.waiting }
        ensures conn { conn_of self.new ≡ settle (conn_of self.old) phase }
        ensures entry { self.new.entry ≡ entry }
        ensures limit { self.new.limit ≡ self.old.limit }
    {
        self.entry = entry;
        match standing_at(&phase) {
            Standing::Over => {
                let _bound = self.inbox.got();
                self.at += 1;
                self.waiting.pop();
                self.phase = Phase::AtBegin;
                self.last = 0;
                self.outcome = 0;
                self.reserved = 0;
            }
            _ => self.phase = phase,
        }
    }

    /// Does the action that is due of the first request.
    fn act_first<H: Hold>(
        &mut self,
        alloc: Global,
        hold: &mut H,
    ) -> Result<Option<Action>, NoMemory>
        requires { ServesWith (H.config hold.old) (H.rooms hold.old) self.old.phase self.old.entry (current (conn_of self.old)) }
        ensures acts { IfOk result (λ acted. ActsFirst_or_none (H.config hold.old) (H.rooms hold.old) (H.rooms hold.new) (H.moment hold.new) acted self.old self.new) }
        ensures moves { IfOk result (λ acted. MovesFirst H.moves (asker_at (H.config hold.old) self.old) acted hold.old hold.new) }
        ensures same { IfOk result (λ _. H.config hold.new ≡ H.config hold.old) }
    {
        let Some(request) = self.waiting.first() else {
            return Ok(None);
        };
        let since = Since {
            origin: Origin::Direct,
            last: self.last,
            outcome: self.outcome,
            reserved: self.reserved,
        };
        let phase = std::mem::replace(&mut self.phase, Phase::AtOver);
        let entry = self.entry.take();
        let acted = act(alloc, hold, request, phase, entry, &mut self.out, since)?;
        Ok(Some(acted))
    }

    /// Does the action that is due of the served request, where one is: its event. `free` is how many tokens are free.
    pub fn serve<H: Hold>(
        &mut self,
        alloc: Global,
        hold: &mut H,
        free: u64,
    ) -> Result<Option<What>, NoMemory>
        requires { Rests (H.config hold.old) (H.rooms hold.old) self.old.phase self.old.entry self.old.waiting }
        ensures serves { IfOk result (λ what. ServesLine (H.config hold.old) (H.rooms hold.old) (H.rooms hold.new) (H.moment hold.new) free what self.old self.new) }
        ensures moves { IfOk result (λ what. MovesHold H.moves (asker_at (H.config hold.old) self.old) what hold.old hold.new) }
        ensures same { IfOk result (λ _. H.config hold.new ≡ H.config hold.old) }
        ensures rests { IfOk result (λ _. Rests (H.config hold.old) (H.rooms hold.new) self.new.phase self.new.entry self.new.waiting) }
    {
        if self.is_idle(free) {
            return Ok(None);
        }
        let Some(acted) = self.act_first(alloc, hold)? else {
            return Ok(None);
        };
        let now = hold.now();
        let Action { what, phase, entry } = acted;
        self.note_event(now, &what);
        self.move_to(phase, entry);
        Ok(Some(what))
    }

    /// What the connection has come to.
    pub fn end(&self) -> End
        ensures { end_of result ≡ if_too_long self.now.long ((request_reader self.now.limit).ends self.now.rest self.now.closed) }
    {
        match self.long {
            Some(size) => End::ReplyTooLong(size),
            None => self.inbox.end(),
        }
    }

    /// Takes out the bytes that were sent; all else stays.
    pub fn take_sent(&mut self, alloc: Global) -> ByteText
        ensures sent { result ≡ self.old.out }
        ensures left { self.new ≡ record self.old { out = [] } }
    {
        ByteText::from_vec(std::mem::replace(&mut self.out, Vec::new(alloc)))
    }
}
