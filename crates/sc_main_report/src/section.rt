//! What a report tells of one connection.
ghost use Rattle.std.specs.Prelude.{◌≡◌, ◌++◌, IfOk, OnOk};
ghost use Rattle.sc_main_report.specs.Report.{connection_line, end_text};
ghost use Rattle.sc_main_script_words.specs.Replies.{reply_line};

use sc_entry::NoMemory;
use sc_main_script_words::{put_number, put_reply};
use sc_model::Response;
use sc_wire_conn::End;
use sc_words::put;
use std::alloc::Global;
use std::marker::Model;

/// What a report tells of one connection. Contracts see its bytes.
#[derive(Drop)]
pub struct Section {
    text: Vec<u8>,
}

impl Model for Section {
    ghost use Rattle.std.specs.Prelude.{List, ℕ};

    ghost Value = { List ℕ };

    ghost view = { λ s. s.text.items };
}

impl Section {
    /// The section of a connection on which no reply was sent yet.
    pub fn new(alloc: Global, connection: u64, end: End) -> Result<Section, NoMemory>
        ensures { IfOk result (λ s. s ≡ connection_line connection end) }
    {
        let mut text = Vec::new(alloc);
        put(&mut text, b"conn ")?;
        put_number(alloc, &mut text, connection)?;
        put(&mut text, b" ")?;
        put_end(alloc, &mut text, end)?;
        put(&mut text, b"\n")?;
        Ok(Section { text })
    }

    /// Appends a reply's line.
    pub fn append(&mut self, alloc: Global, reply: &Response) -> Result<(), NoMemory>
        ensures { OnOk result (self.new ≡ self.old ++ reply_line reply.now) }
    {
        put_reply(alloc, &mut self.text, reply)?;
        Ok(())
    }

    pub fn as_slice(&self) -> &[u8]
        ensures { result.now ≡ self.now }
    {
        self.text.as_slice()
    }
}

#[tactic(auto, unfolding(crate::specs::Report::end_text))]
fn put_end(alloc: Global, out: &mut Vec<u8>, end: End) -> Result<(), NoMemory>
    ensures { OnOk result (out.new.items ≡ out.old.items ++ end_text end) }
{
    match end {
        End::Open => put(out, b"open"),
        End::Ended => put(out, b"ended"),
        End::EndInFrame => put(out, b"end-in-frame"),
        End::BadFrame => put(out, b"bad-frame"),
        End::ReplyTooLong(size) => {
            put(out, b"reply-too-long ")?;
            put_number(alloc, out, size)
        }
    }
}
