//! What a report tells of the connections, a section each.
ghost use Rattle.std.specs.Prelude.{◌≡◌, ◌++◌, [], IfOk, OnOk};
ghost use Rattle.std.specs.List.{concat};
ghost use Rattle.sc_main_report.specs.Report.{sections};
ghost use Rattle.sc_main_report.specs.Sections.{with_event};

use crate::section::Section;
use sc_entry::NoMemory;
use sc_model::{Event, Owner, What};
use sc_wire_conn::End;
use sc_words::put;
use std::alloc::Global;

/// The sections of connections on which no reply was sent yet.
fn new_sections(alloc: Global, ends: &[End]) -> Result<Vec<Section>, NoMemory>
    ensures { IfOk result (λ s. s.items ≡ sections 0 ends.now []) }
{
    let mut made = Vec::new(alloc);
    let mut connection: u64 = 0;
    let mut left = ends;
    while let [end, rest @ ..] = left {
        made.push(Section::new(alloc, connection, *end)?)?;
        connection += 1;
        left = rest;
    }
    Ok(made)
}

/// Appends the line of the reply that an event sent, if it sent one, to its connection's section.
fn put_event(alloc: Global, sections: &mut [Section], event: &Event) -> Result<(), NoMemory>
    ensures { OnOk result (sections.new ≡ with_event sections.old event.now.owner event.now.what) }
{
    let Owner::Request(connection, _) = &event.owner else {
        return Ok(());
    };
    let What::Sent(reply) = &event.what else {
        return Ok(());
    };
    let place = *connection as usize;
    if place < sections.len() {
        sections[place].append(alloc, reply)?;
    }
    Ok(())
}

/// The section of each connection.
fn sections_of(alloc: Global, ends: &[End], events: &[Event]) -> Result<Vec<Section>, NoMemory>
    ensures { IfOk result (λ s. s.items ≡ sections 0 ends.now events.now) }
{
    let mut made = new_sections(alloc, ends)?;
    for event in events {
        put_event(alloc, &mut made, event)?;
    }
    Ok(made)
}

fn put_all(out: &mut Vec<u8>, sections: &[Section]) -> Result<(), NoMemory>
    ensures { OnOk result (out.new.items ≡ out.old.items ++ concat sections.now) }
{
    let mut left = sections;
    while let [section, rest @ ..] = left {
        put(out, section.as_slice())?;
        left = rest;
    }
    Ok(())
}

/// Appends what a report tells of the connections, whose ends these are, after these events, the oldest first.
pub fn put_sections(
    alloc: Global,
    out: &mut Vec<u8>,
    ends: &[End],
    events: &[Event],
) -> Result<(), NoMemory>
    ensures { OnOk result (out.new.items ≡ out.old.items ++ concat (sections 0 ends.now events.now)) }
{
    let sections = sections_of(alloc, ends, events)?;
    put_all(out, sections.as_slice())
}
