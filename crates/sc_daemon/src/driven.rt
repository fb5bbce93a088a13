use sc_entry::{ByteText, Items};
use sc_model::{Event, Handed};
use sc_wire_conn::End;

/// What a connection came to: its end, and the bytes that it was sent.
#[derive(Drop)]
pub struct DrivenConn {
    pub end: End,
    pub sent: ByteText,
}

/// What a drive came to: its events in their order, its connections, and the handed writes that are left.
#[derive(Drop)]
pub struct Driven {
    pub trace: Items<Event>,
    pub conns: Items<DrivenConn>,
    pub background: Items<Handed>,
}
