// The rows of payments that come in pieces, and the first fault in them.
use super::fixtures::{check, lines_of_rows};
use super::pieces::{PAYMENTS, tap_of};
use super::rows::{ONE_SOURCE, TWO_SOURCES, job_of};
use crate::tests::check_text;
use input_pieces::{MemoryTap, Pieces};
use jobs::Job;
use payments::{PFault, read_rows};
use std::process::Abort;
use stream_rows::{RowReader, SoundRows, most_rows};
use tuple_trace::Bytes;

/// The rows of a text as lines, how many they are, and its fault.
#[derive(Drop)]
struct Found {
    lines: String,
    rows: usize,
    fault: Option<PFault>,
}

fn add_rows(rt: &(impl AllocGlobal + Abort), sound: &SoundRows, found: &mut Found) {
    found.rows = found.rows.saturating_add(sound.rows.len());
    found.fault = sound.fault;
    let lines = lines_of_rows(rt, sound.rows.as_slice());
    found.lines.push_str(lines.as_str()).expect(rt, "memory");
}

// Reads one piece more. At the end, and after a fault, it says so.
fn is_last(
    rt: &(impl AllocGlobal + Abort),
    job: &Job,
    piece: Option<Bytes>,
    reader: &mut RowReader,
    found: &mut Found,
) -> bool {
    let Some(piece) = piece else {
        found.fault = reader.at_end();
        return true;
    };
    let sound = reader
        .read(rt.alloc(), job, piece.as_slice())
        .expect(rt, "memory");
    add_rows(rt, &sound, found);
    sound.fault.is_some()
}

// Reads all pieces of a tap.
fn read_all(rt: &(impl AllocGlobal + Abort), job: &Job, tap: &mut MemoryTap, found: &mut Found) {
    let mut pieces = Pieces::new(rt.alloc());
    let mut reader = RowReader::new();
    for _ in 0..1000 {
        let piece = pieces.next_piece(tap).expect(rt, "a read");
        if is_last(rt, job, piece, &mut reader, found) {
            return;
        }
    }
    assert!(rt; false, "a thousand pieces");
}

// What is found in a text whose first read gives so many bytes.
fn found_in(rt: &(impl AllocGlobal + Abort), job: &Job, text: &[u8], first: usize) -> Found {
    let mut found = Found {
        lines: String::new(rt.alloc()),
        rows: 0,
        fault: None,
    };
    read_all(rt, job, &mut tap_of(rt, text, &[first]), &mut found);
    found
}

fn check_lines(rt: &(impl AllocGlobal + Abort), job: &Job, text: &[u8], first: usize, lines: &str) {
    let found = found_in(rt, job, text, first);
    check_text(rt, found.lines.as_bytes(), lines);
    check(rt, found.fault, None);
}

// Checks that the text, cut at each byte, has the rows that it has as a file.
#[test]
fn ten_payments_in_two_pieces(rt: HostRuntime) {
    let columns = "\"account:text\", \"merchant:text\", \"amount:cents\"";
    let job = job_of(&rt, columns, TWO_SOURCES);
    let rows = read_rows(rt.alloc(), &job, PAYMENTS.as_bytes()).expect(&rt, "rows");
    check(&rt, rows.len(), 10);
    let lines = lines_of_rows(&rt, rows.as_slice());
    for first in 1..=PAYMENTS.len() {
        check_lines(&rt, &job, PAYMENTS.as_bytes(), first, lines.as_str());
    }
}

/// Texts, how many rows come before their fault, and the fault.
static TEXTS: &[(&[u8], usize, Option<PFault>)] = &[
    (b"", 0, Some(PFault::NoHeader)),
    (b"\r\n\n", 0, Some(PFault::NoHeader)),
    (b"source,who,sum", 0, None),
    (b"\n\nsource,who,sum\n\ncard,ann,1\n\n", 1, None),
    (b"source,who\ncard,ann\n", 0, Some(PFault::Header)),
    (
        b"\xef\xbb\xbfsource,who,sum\ncard,ann,1\nwire,bob,2",
        2,
        None,
    ),
    (b"\xef\xbb\xbf\"source\",\"who\",sum\ncard,ann,1\n", 1, None),
    (
        b"\n\xef\xbb\xbfsource,who,sum\ncard,ann,1\n",
        0,
        Some(PFault::Header),
    ),
    (
        b"source,who,sum\ncard,ann,1\n\xef\xbb\xbfcard,bob,2\n",
        1,
        Some(PFault::Source(2)),
    ),
    (
        b"source,who,sum\ncard,ann,1\nwire,bob,2\ncard,cid,x\ncard,dan,4\n",
        2,
        Some(PFault::Value(3, 1)),
    ),
    (
        b"source,who,sum\ncard,ann,1\ncard,\"bob,2\n",
        1,
        Some(PFault::Length(2)),
    ),
];

fn check_found(
    rt: &(impl AllocGlobal + Abort),
    job: &Job,
    text: &[u8],
    first: usize,
    want: (usize, Option<PFault>),
) {
    let found = found_in(rt, job, text, first);
    check(rt, (found.rows, found.fault), want);
}

#[test]
fn texts_in_two_pieces(rt: HostRuntime) {
    let job = job_of(&rt, "\"who:text\", \"sum:cents\"", TWO_SOURCES);
    for (text, rows, fault) in TEXTS {
        for first in 0..=text.len() {
            check_found(&rt, &job, text, first, (*rows, *fault));
        }
    }
}

/// A row visits the sink alone. One of two sources visits the map and the sink, and each weighs 2.
#[test]
fn rows_of_parts(rt: HostRuntime) {
    let one = job_of(&rt, "\"who:text\"", ONE_SOURCE);
    check(&rt, most_rows(&one), 1_048_576);
    let two = job_of(&rt, "\"who:text\"", TWO_SOURCES);
    check(&rt, most_rows(&two), 262_144);
}
