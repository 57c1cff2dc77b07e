// The tables, and what is asked of each row.
use schedule::cause::Cause;
use schedule::line::LINE_ROOM;
use schedule::reader::ScheduleReader;
use schedule::record::Record;
use schedule::refusal::{ReadRefusal, ShortBuffer};
use schedule::write::write_records;
use std::process::Abort;
use std::test::Fail;

// A record, its bytes and its line.
#[derive(Clone, Copy)]
struct Row {
    record: Record,
    bytes: &'static [u8],
    line: &'static [u8],
}

static ROWS: [Row; 14] = [
    Row {
        record: Record::Open {
            limit: 64,
            keep: 1,
            nodes: 200,
        },
        bytes: &[79, 64, 1, 200],
        line: b"O 64 1 200\n",
    },
    Row {
        record: Record::StartInSlot { make: 0, child: 9 },
        bytes: &[65, 0, 9],
        line: b"A 0 9\n",
    },
    Row {
        record: Record::StartWithToken {
            make: 10,
            child: 99,
            token: 100,
        },
        bytes: &[84, 10, 99, 100],
        line: b"T 10 99 100\n",
    },
    Row {
        record: Record::StartWithToken {
            make: 255,
            child: 255,
            token: 255,
        },
        bytes: &[84, 255, 255, 255],
        line: b"T 255 255 255\n",
    },
    Row {
        record: Record::Step { job: 0 },
        bytes: &[83, 0],
        line: b"S 0\n",
    },
    Row {
        record: Record::Step { job: 9 },
        bytes: &[83, 9],
        line: b"S 9\n",
    },
    Row {
        record: Record::Step { job: 10 },
        bytes: &[83, 10],
        line: b"S 10\n",
    },
    Row {
        record: Record::Kill { job: 99 },
        bytes: &[75, 99],
        line: b"K 99\n",
    },
    Row {
        record: Record::Kill { job: 100 },
        bytes: &[75, 100],
        line: b"K 100\n",
    },
    Row {
        record: Record::Halt,
        bytes: &[72],
        line: b"H\n",
    },
    Row {
        record: Record::EndedWell { node: 255 },
        bytes: &[69, 255],
        line: b"E 255\n",
    },
    Row {
        record: Record::EndedFailed { node: 4, cause: 1 },
        bytes: &[70, 4, 1],
        line: b"F 4 1\n",
    },
    Row {
        record: Record::PutBack {
            make: 2,
            token: 121,
        },
        bytes: &[82, 2, 121],
        line: b"R 2 121\n",
    },
    Row {
        record: Record::Finished { failed: 1 },
        bytes: &[68, 1],
        line: b"D 1\n",
    },
];

// A byte that no call writes into the buffers below.
const BLANK: u8 = 7;

fn blank(rt: &impl Abort, bytes: &[u8]) {
    assert!(rt; bytes.iter().all(|byte| *byte == BLANK));
}

fn reads(rt: &impl Abort, row: &Row) -> Result<(), Fail> {
    let mut reader = ScheduleReader::new(row.bytes);
    let placed = reader.next()?.ok_or("no record")?;
    assert_eq!(rt; placed.place, 0);
    assert_eq!(rt; placed.record.record(), row.record);
    assert!(rt; reader.next()?.is_none());
    Ok(())
}

// Each front of the bytes that has the kind byte and not the whole body.
fn reads_no_cut(rt: &impl Abort, row: &Row) {
    for length in 1..row.bytes.len() {
        let mut reader = ScheduleReader::new(&row.bytes[0..length]);
        refuses(rt, &mut reader, ReadRefusal::CutShort { place: 0 });
    }
}

// A refused reader is unaltered, so that it refuses again.
fn refuses(rt: &impl Abort, reader: &mut ScheduleReader, refusal: ReadRefusal) {
    for _ in 0..2 {
        assert_eq!(rt; reader.next().err(), Some(refusal));
    }
}

fn writes(rt: &impl Abort, row: &Row) -> Result<(), Fail> {
    let mut buffer = [BLANK; 6];
    assert_eq!(rt; row.record.size(), row.bytes.len());
    let end = row.record.write(&mut buffer, 1)?;
    assert!(rt; end >= 1 && end <= 6);
    assert_eq!(rt; &buffer[1..end], row.bytes);
    assert_eq!(rt; buffer[0], BLANK);
    blank(rt, &buffer[end..6]);
    Ok(())
}

fn refuses_write(rt: &impl Abort, row: &Row, place: usize) {
    let mut buffer = [BLANK; 4];
    assert_eq!(rt; row.record.write(&mut buffer, place), Err(ShortBuffer));
    blank(rt, &buffer);
}

// The last place in four bytes that has room for the record, and some behind it.
fn writes_no_further(rt: &impl Abort, row: &Row) {
    let last = 4usize.saturating_sub(row.bytes.len());
    let mut buffer = [BLANK; 4];
    assert_eq!(rt; row.record.write(&mut buffer, last), Ok(4));
    for place in [last.saturating_add(1), 4, usize::MAX] {
        refuses_write(rt, row, place);
    }
}

fn prints(rt: &impl Abort, row: &Row) -> Result<(), Fail> {
    let mut buffer = [BLANK; LINE_ROOM];
    let length = row.record.line(&mut buffer)?;
    assert!(rt; length <= 24);
    assert_eq!(rt; &buffer[0..length], row.line);
    blank(rt, &buffer[length..24]);
    Ok(())
}

fn prints_no_short(rt: &impl Abort, row: &Row) {
    let mut buffer = [BLANK; 23];
    assert_eq!(rt; row.record.line(&mut buffer), Err(ShortBuffer));
    blank(rt, &buffer);
}

fn stands(rt: &impl Abort, row: &Row) -> Result<(), Fail> {
    reads(rt, row)?;
    reads_no_cut(rt, row);
    writes(rt, row)?;
    writes_no_further(rt, row);
    prints(rt, row)?;
    prints_no_short(rt, row);
    Ok(())
}

#[test]
fn each_row(rt: HostRuntime) -> Result<(), Fail> {
    for row in ROWS.iter().chain(BUILD.iter().map(|(_, row)| row)) {
        stands(&rt, row)?;
    }
    Ok(())
}

fn is_unknown(kind: u8) -> bool {
    !b"OATSKHEFRD".contains(&kind)
}

#[test]
fn each_unknown_kind(rt: HostRuntime) {
    let unknown = (0..=255u8).filter(|kind| is_unknown(*kind)).count();
    assert_eq!(rt; unknown, 246);
    for kind in (0..=255u8).filter(|kind| is_unknown(*kind)) {
        let schedule = [kind, 0, 0, 0];
        let mut reader = ScheduleReader::new(&schedule);
        refuses(&rt, &mut reader, ReadRefusal::UnknownKind { place: 0 });
    }
}

#[test]
fn an_empty_schedule(rt: HostRuntime) -> Result<(), Fail> {
    let mut reader = ScheduleReader::new(&[]);
    assert!(rt; reader.next()?.is_none());
    assert!(rt; reader.next()?.is_none());
    Ok(())
}

// A schedule, where its two good records stand, and the refusal behind them.
#[test]
fn behind_good_records(rt: HostRuntime) -> Result<(), Fail> {
    for (schedule, refusal) in [
        ([72, 83, 1, 84, 1, 2], ReadRefusal::CutShort { place: 3 }),
        ([72, 83, 84, 79, 1, 2], ReadRefusal::CutShort { place: 3 }),
        ([72, 83, 1, 0, 1, 2], ReadRefusal::UnknownKind { place: 3 }),
    ] {
        let mut reader = ScheduleReader::new(&schedule);
        assert_eq!(rt; reader.next()?.ok_or("no halt")?.place, 0);
        assert_eq!(rt; reader.next()?.ok_or("no step")?.place, 1);
        refuses(&rt, &mut reader, refusal);
    }
    Ok(())
}

// A build of one job that ends well and one that fails, over one token: docs/SCHEDULE.md goes through it.
// Each record with its place.
static BUILD: [(usize, Row); 10] = [
    (
        0,
        Row {
            record: Record::Open {
                limit: 2,
                keep: 0,
                nodes: 3,
            },
            bytes: &[79, 2, 0, 3],
            line: b"O 2 0 3\n",
        },
    ),
    (
        4,
        Row {
            record: Record::StartInSlot { make: 0, child: 1 },
            bytes: &[65, 0, 1],
            line: b"A 0 1\n",
        },
    ),
    (
        7,
        Row {
            record: Record::StartWithToken {
                make: 0,
                child: 2,
                token: 120,
            },
            bytes: &[84, 0, 2, 120],
            line: b"T 0 2 120\n",
        },
    ),
    (
        11,
        Row {
            record: Record::Step { job: 1 },
            bytes: &[83, 1],
            line: b"S 1\n",
        },
    ),
    (
        13,
        Row {
            record: Record::EndedWell { node: 1 },
            bytes: &[69, 1],
            line: b"E 1\n",
        },
    ),
    (
        15,
        Row {
            record: Record::PutBack {
                make: 0,
                token: 120,
            },
            bytes: &[82, 0, 120],
            line: b"R 0 120\n",
        },
    ),
    (
        18,
        Row {
            record: Record::Step { job: 2 },
            bytes: &[83, 2],
            line: b"S 2\n",
        },
    ),
    (
        20,
        Row {
            record: Record::EndedFailed { node: 2, cause: 1 },
            bytes: &[70, 2, 1],
            line: b"F 2 1\n",
        },
    ),
    (
        23,
        Row {
            record: Record::EndedFailed { node: 0, cause: 3 },
            bytes: &[70, 0, 3],
            line: b"F 0 3\n",
        },
    ),
    (
        26,
        Row {
            record: Record::Finished { failed: 1 },
            bytes: &[68, 1],
            line: b"D 1\n",
        },
    ),
];

static BUILD_BYTES: [u8; 28] = [
    79, 2, 0, 3, 65, 0, 1, 84, 0, 2, 120, 83, 1, 69, 1, 82, 0, 120, 83, 2, 70, 2, 1, 70, 0, 3, 68,
    1,
];

#[test]
fn a_whole_build(rt: HostRuntime) -> Result<(), Fail> {
    let mut reader = ScheduleReader::new(&BUILD_BYTES);
    for (place, row) in &BUILD {
        let placed = reader.next()?.ok_or("ended early")?;
        assert_eq!(rt; placed.place, *place);
        assert_eq!(rt; placed.record.record(), row.record);
    }
    assert!(rt; reader.next()?.is_none());
    Ok(())
}

#[test]
fn a_build_cut_short(rt: HostRuntime) -> Result<(), Fail> {
    let mut reader = ScheduleReader::new(&BUILD_BYTES[0..27]);
    for _ in 0..9 {
        assert!(rt; reader.next()?.is_some());
    }
    refuses(&rt, &mut reader, ReadRefusal::CutShort { place: 26 });
    Ok(())
}

#[test]
fn writes_records_behind_each_other(rt: HostRuntime) {
    let records = [
        Record::Kill { job: 3 },
        Record::EndedFailed {
            node: 3,
            cause: Cause::Kill.number(),
        },
        Record::Halt,
    ];
    let mut buffer = [BLANK; 8];
    assert_eq!(rt; write_records(&records, &mut buffer, 3), Err(ShortBuffer));
    blank(&rt, &buffer);
    assert_eq!(rt; write_records(&records, &mut buffer, 1), Ok(7));
    assert_eq!(rt; &buffer, &[BLANK, 75, 3, 70, 3, 2, 72, BLANK]);
}

#[test]
fn numbers(rt: HostRuntime) {
    for (cause, number) in [
        (Cause::Script, 1),
        (Cause::Kill, 2),
        (Cause::FailedChild, 3),
        (Cause::Halt, 4),
    ] {
        assert_eq!(rt; cause.number(), number);
    }
    for (refusal, number) in [
        (ReadRefusal::UnknownKind { place: 5 }, 19),
        (ReadRefusal::CutShort { place: 5 }, 20),
    ] {
        assert_eq!(rt; refusal.number(), number);
        assert_eq!(rt; refusal.place(), 5);
    }
    assert_eq!(rt; ShortBuffer.number(), 15);
}
