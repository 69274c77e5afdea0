// Pieces of an input, however its bytes come, and the records of each piece in turn.
use super::fixtures::check;
use crate::tests::check_text;
use csv::{ByteRecord, ReaderBuilder};
use input_pieces::{HostTap, MAX_RECORD, MemoryTap, PieceFault, Pieces, SureTap, Tap, TapStep};
use std::process::Abort;
use tuple_trace::{Bytes, Items};

/// Ten payments: quoted commas, quotes and line ends, both line ends, an empty line, and no line
/// feed at the end.
pub const PAYMENTS: &str = "source,account,merchant,amount\r
card,ann,\"bakery, mill\",12.50\r
card,bob,\"the \"\"inn\"\"\",7.00
wire,cid,\"two
lines\",100.00
card,dot,,0.01\r
card,\"eve\",shop,3.20

wire,fay,\"a\r
b\",5.00\r
card,gus,x\"y,1.00
card,hal,\"\",2.00
card,ivy,end\"\",9.99
wire,\"joe\",last,8.80";

/// Their records: `|` behind each field, and `;` behind each record.
const RECORDS: &str = "source|account|merchant|amount|;\
card|ann|bakery, mill|12.50|;\
card|bob|the \"inn\"|7.00|;\
wire|cid|two\nlines|100.00|;\
card|dot||0.01|;\
card|eve|shop|3.20|;\
wire|fay|a\r\nb|5.00|;\
card|gus|x\"y|1.00|;\
card|hal||2.00|;\
card|ivy|end\"\"|9.99|;\
wire|joe|last|8.80|;";

// Adds the fields of a record.
fn add_fields(rt: &impl Abort, cells: &ByteRecord, found: &mut Bytes) {
    for cell in cells.iter() {
        found.extend_from_slice(cell).expect(rt, "memory");
        found.push(b'|').expect(rt, "memory");
    }
    found.push(b';').expect(rt, "memory");
}

// Adds the records of a piece.
fn add_records(rt: &(impl AllocGlobal + Abort), piece: &[u8], found: &mut Bytes) {
    let mut builder = ReaderBuilder::new();
    builder.has_headers(false).flexible(true);
    let mut reader = builder.from_reader(rt.alloc(), piece);
    let mut cells = ByteRecord::new(rt.alloc());
    for _ in 0..piece.len() {
        if !reader.read_byte_record(&mut cells).expect(rt, "a record") {
            return;
        }
        add_fields(rt, &cells, found);
    }
}

// Checks that the records of this tap are those of the ten payments.
fn check_payments<T: Tap>(rt: &(impl AllocGlobal + Abort), tap: &mut T) {
    let mut found = Bytes::new(rt.alloc());
    let mut pieces = Pieces::new(rt.alloc());
    for _ in 0..1000 {
        match pieces.next_piece(tap).expect(rt, "a read") {
            Some(piece) => add_records(rt, piece.as_slice(), &mut found),
            None => break,
        }
    }
    check(rt, pieces.is_over(), true);
    check_text(rt, found.as_slice(), RECORDS);
}

fn bytes_of(rt: &(impl AllocGlobal + Abort), text: &[u8]) -> Bytes {
    Bytes::from_slice(rt.alloc(), text).expect(rt, "memory")
}

// A tap that gives so many bytes with each of its first reads.
pub fn tap_of(rt: &(impl AllocGlobal + Abort), text: &[u8], reads: &[usize]) -> MemoryTap {
    let mut steps = Items::new(rt.alloc());
    for read in reads {
        steps.push(TapStep::Gives(*read)).expect(rt, "memory");
    }
    MemoryTap::new(bytes_of(rt, text), steps)
}

#[test]
fn each_cut(rt: HostRuntime) {
    for first in 1..=PAYMENTS.len() {
        check_payments(&rt, &mut tap_of(&rt, PAYMENTS.as_bytes(), &[first]));
    }
}

#[test]
fn each_byte_alone(rt: HostRuntime) {
    let mut tap = SureTap::new(bytes_of(&rt, PAYMENTS.as_bytes()), 1);
    check_payments(&rt, &mut tap);
    check(&rt, tap.left().len(), 0);
}

#[test]
fn payments_of_a_reader(rt: HostRuntime) {
    check_payments(&rt, &mut HostTap::new(PAYMENTS.as_bytes()));
}

/// A text, how many bytes the first reads give, and the pieces.
type Torn = (&'static str, &'static [usize], &'static [&'static str]);

static TORN: &[Torn] = &[
    ("", &[], &[]),
    ("a\nb\nc", &[], &["a\nb\n", "c"]),
    ("a\nb\n", &[1], &["a\nb\n"]),
    ("a\nb\n", &[2], &["a\n", "b\n"]),
    ("a\r\nb\r\n", &[2], &["a\r\nb\r\n"]),
    ("a\r\nb\r\n", &[3], &["a\r\n", "b\r\n"]),
    ("a\rb\rc\r", &[2, 2], &["a\rb\rc\r"]),
    ("a,\"b\nc\"\nd\n", &[5, 3], &["a,\"b\nc\"\n", "d\n"]),
    ("a,\"b\nc\"\nd\n", &[4, 1, 2, 1], &["a,\"b\nc\"\n", "d\n"]),
    ("\"x\"\"\n\"\ny\n", &[3, 2], &["\"x\"\"\n\"\ny\n"]),
];

// Checks that the next pieces are these, and no more.
fn check_pieces(rt: &(impl AllocGlobal + Abort), tap: &mut MemoryTap, want: &[&str]) {
    let mut pieces = Pieces::new(rt.alloc());
    for text in want {
        let piece = pieces.next_piece(tap).expect(rt, "a read");
        check_text(rt, piece.expect(rt, "a piece").as_slice(), text);
    }
    let end = pieces.next_piece(tap).expect(rt, "a read");
    check(rt, end.is_none(), true);
    check(rt, pieces.is_over(), true);
}

#[test]
fn torn_quotes(rt: HostRuntime) {
    for (text, reads, want) in TORN {
        check_pieces(&rt, &mut tap_of(&rt, text.as_bytes(), reads), want);
    }
}

// How many bytes the next piece has, or the fault.
fn next_length(pieces: &mut Pieces, tap: &mut MemoryTap) -> Result<usize, PieceFault> {
    match pieces.next_piece(tap) {
        Ok(Some(piece)) => Ok(piece.len()),
        Ok(None) => Ok(0),
        Err(fault) => Err(fault),
    }
}

// The input is one record of so many bytes, and a line feed.
fn record_tap(rt: &(impl AllocGlobal + Abort), size: usize) -> MemoryTap {
    let mut text = Bytes::from_vec(vec![in rt.alloc(); b'a'; size].expect(rt, "memory"));
    text.push(b'\n').expect(rt, "memory");
    MemoryTap::new(text, Items::new(rt.alloc()))
}

// A second call after a fault has to answer the same.
#[test]
fn long_record(rt: HostRuntime) {
    let mut pieces = Pieces::new(rt.alloc());
    let longest = next_length(&mut pieces, &mut record_tap(&rt, MAX_RECORD - 1));
    check(&rt, longest, Ok(1_048_576));
    let mut pieces = Pieces::new(rt.alloc());
    let mut longer = record_tap(&rt, MAX_RECORD);
    check(
        &rt,
        next_length(&mut pieces, &mut longer),
        Err(PieceFault::Long),
    );
    check(
        &rt,
        next_length(&mut pieces, &mut longer),
        Err(PieceFault::Long),
    );
}

// Adds what a call gives, as a text: `-` at the end, `?` for a fault.
fn add_next(rt: &impl Abort, pieces: &mut Pieces, tap: &mut MemoryTap, found: &mut Bytes) {
    let added = match pieces.next_piece(tap) {
        Ok(Some(piece)) => found.extend_from_slice(piece.as_slice()),
        Ok(None) => found.push(b'-'),
        Err(_) => found.push(b'?'),
    };
    added.expect(rt, "memory");
}

static FAILING: [TapStep; 4] = [
    TapStep::Gives(1),
    TapStep::Fails,
    TapStep::Gives(2),
    TapStep::Fails,
];

#[test]
fn failing_read(rt: HostRuntime) {
    let steps = Items::from_slice(rt.alloc(), &FAILING).expect(&rt, "memory");
    let mut tap = MemoryTap::new(bytes_of(&rt, b"a\nb\n"), steps);
    let mut pieces = Pieces::new(rt.alloc());
    let mut found = Bytes::new(rt.alloc());
    for _ in 0..6 {
        add_next(&rt, &mut pieces, &mut tap, &mut found);
    }
    check_text(&rt, found.as_slice(), "?a\n?b\n--");
    check(&rt, tap.faults(), 2);
    check(&rt, pieces.kept().len(), 0);
}
