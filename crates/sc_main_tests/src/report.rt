use sc_main_report::{Ended, Report, exit_code, put_error, put_report, put_version};
use sc_main_script::LevelSize;
use sc_model::{Event, Owner, Response, What};
use sc_stats::{LevelStats, ServerStats};
use sc_wire_conn::End;
use std::alloc::Global;
use std::process::Abort;
use std::test::Fail;

/// A reply on a connection, as an event.
fn replied(number: u64, reply: Response) -> Event {
    Event {
        moment: 7,
        owner: Owner::Request(number, 0),
        what: What::Sent(reply),
    }
}

fn counters(alloc: Global) -> LevelStats {
    let mut stats = LevelStats::new(alloc);
    stats.hits = 1;
    stats.misses = 2;
    stats.writes = 3;
    stats.write_failures = 4;
    stats.backfills_from = 5;
    stats.backfills_to = u64::MAX;
    stats
}

const SIZES: [LevelSize; 2] = [
    LevelSize {
        bytes: 41,
        entries: 1,
    },
    LevelSize {
        bytes: 0,
        entries: 0,
    },
];

/// Whether a report is printed so, behind what stood there.
fn prints(rt: &impl Abort, alloc: Global, report: &Report<'_>, wanted: &[u8]) -> Result<(), Fail> {
    let mut out = b"before\n".to_vec(alloc)?;
    put_report(alloc, &mut out, report)?;
    assert_eq!(rt; out.as_slice(), wanted);
    Ok(())
}

/// Of three replies, one is on a connection that there isn't.
#[test]
fn ample_put_report(rt: HostRuntime) -> Result<(), Fail> {
    let events = [
        replied(1, Response::ZeroStats),
        replied(2, Response::RecordStats),
        replied(0, Response::StorageGetRaw(None)),
    ];
    let counters = [counters(rt.alloc())];
    let mut stats = ServerStats::new(rt.alloc());
    stats.compile_requests = 1;
    stats.cache_writes = 20;
    let report = Report {
        ends: &[End::Open, End::ReplyTooLong(73)],
        events: &events,
        levels: &SIZES,
        counters: &counters,
        background: 3,
        tokens: 65535,
        stats: &stats,
    };
    let text = b"before
conn 0 open
raw none
conn 1 reply-too-long 73
zero-stats
level 0 41 1 hits 1 misses 2 writes 3 failures 4 from 5 to 18446744073709551615
level 1 0 0
background 3
tokens 65535
runs 0
compile_requests 1
cache_writes 20
end
";
    prints(&rt, rt.alloc(), &report, text)
}

#[test]
fn ample_ends(rt: HostRuntime) -> Result<(), Fail> {
    let stats = ServerStats::new(rt.alloc());
    let report = Report {
        ends: &[End::Ended, End::EndInFrame, End::BadFrame],
        events: &[],
        levels: &[],
        counters: &[],
        background: 0,
        tokens: 0,
        stats: &stats,
    };
    let text = b"before
conn 0 ended
conn 1 end-in-frame
conn 2 bad-frame
background 0
tokens 0
runs 0
end
";
    prints(&rt, rt.alloc(), &report, text)
}

#[test]
fn ample_put_error(rt: HostRuntime) -> Result<(), Fail> {
    let ends: [(Ended, u8, &[u8]); 9] = [
        (Ended::Status(-2), 254, b""),
        (Ended::Status(1), 1, b""),
        (
            Ended::Usage,
            120,
            b"usage: sccache drive | generate N | serve ADDR DIR BYTES TOKENS | compile ADDR EXE WORD.. | stats ADDR [--advanced] [--json] | zero ADDR | stop ADDR | dist-status ADDR | warm | dry CAP..\n",
        ),
        (Ended::BadScript(2), 121, b"bad script at line 2\n"),
        (Ended::NoMemory, 122, b"out of memory\n"),
        (Ended::ReadFault, 123, b"read fault\n"),
        (Ended::WriteFault, 124, b""),
        (Ended::LinkFault, 125, b"link fault\n"),
        (Ended::Unexpected, 126, b"Unexpected server response!\n"),
    ];
    for (ended, code, line) in ends {
        let mut out = Vec::new(rt.alloc());
        put_error(rt.alloc(), &mut out, &ended)?;
        assert_eq!(rt; exit_code(&ended), code);
        assert_eq!(rt; out.as_slice(), line);
    }
    Ok(())
}

#[test]
fn ample_put_version(rt: HostRuntime) -> Result<(), Fail> {
    let mut out = Vec::new(rt.alloc());
    put_version(&mut out)?;
    assert_eq!(rt; out.as_slice(), b"sccache 0.19.0\n".as_slice());
    Ok(())
}
