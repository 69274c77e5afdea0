//! Which records of an audit are in shape, and which code comes first.
use audit_check::{check_text, read_audit};
use audit_fault::AuditFault;
use flow_model::{Setup, Start};
use sink_journal::Noted;
use std::alloc::Global;
use std::process::Abort;
use test_runs::{job_of, rows_of, setup_of};
use test_texts::{AMOUNT_CHAIN, AUDIT_OF_NONE};

fn setup(alloc: Global) -> Option<Box<Setup>> {
    setup_of(alloc, job_of(alloc, AMOUNT_CHAIN)?, "", false)
}

/// The first record of a text that is out of shape.
#[derive(Clone, Copy, Debug, PartialEq, Eq)]
enum Shape {
    Right,
    Wrong(u64),
    Unknown,
}

fn shape_of(alloc: Global, text: &str) -> Shape {
    match setup(alloc) {
        Some(setup) => shape_by(alloc, &setup, text),
        None => Shape::Unknown,
    }
}

fn shape_by(alloc: Global, setup: &Setup, text: &str) -> Shape {
    match read_audit(alloc, setup, text.as_bytes()) {
        Ok(_) => Shape::Right,
        Err(AuditFault::Shape(record)) => Shape::Wrong(record),
        Err(_) => Shape::Unknown,
    }
}

#[test]
fn the_audit_of_no_payments(rt: HostRuntime) {
    assert_eq!(rt; shape_of(rt.alloc(), AUDIT_OF_NONE), Shape::Right);
}

/// A text with a record, after the header and the end of the feed, and the first record that is
/// out of shape.
const RECORDS: [(&str, Shape); 12] = [
    ("met,big,0,0,1,\n", Shape::Right),
    (
        "met,alerts,0,1,18446744073709551615,0.4294967295\n",
        Shape::Right,
    ),
    ("state,big,0,,-9223372036854775808,\"a,b\"\n", Shape::Right),
    ("met,big,0,0,01,\n", Shape::Wrong(2)),
    ("met,big,0,0,18446744073709551616,\n", Shape::Wrong(2)),
    ("met,big,0,1,1,\n", Shape::Wrong(2)),
    ("met,big,1,0,1,\n", Shape::Wrong(2)),
    ("met,card,0,0,1,\n", Shape::Wrong(2)),
    ("met,big,0,0,1,1.\n", Shape::Wrong(2)),
    ("state,big,0,,-0,a\n", Shape::Wrong(2)),
    ("ended,alerts,0,1,,\nended,big,0,0,,\n", Shape::Wrong(3)),
    ("refused,,,,1,Q1\n", Shape::Wrong(2)),
];

fn shape_with(alloc: Global, record: &str) -> Shape {
    let Ok(text) = format!(in alloc; "entry,node,worker,lane,number,extra\nstopped,,,,,\n{record}")
    else {
        return Shape::Unknown;
    };
    shape_of(alloc, &text)
}

#[test]
fn records_are_judged_one_by_one(rt: HostRuntime) {
    for case in RECORDS {
        assert_eq!(rt; shape_with(rt.alloc(), case.0), case.1, "{}", case.0);
    }
}

#[test]
fn a_text_begins_with_the_header(rt: HostRuntime) {
    for text in [
        "",
        "x,node,worker,lane,number,extra\n",
        "entry,node,worker,lane,number\n",
    ] {
        assert_eq!(rt; shape_of(rt.alloc(), text), Shape::Wrong(0), "{text}");
    }
}

const TWO_PAYMENTS: &str = "source,amount
card,99.99
card,100.00
";

const REFUSED: [Noted; 1] = [Noted { place: 2, code: 4 }];

/// The first fault of a text of two payments of which one request is refused, as far as it is one
/// of the first three codes.
fn fault_of(alloc: Global, text: &str) -> Option<AuditFault> {
    let setup = setup(alloc)?;
    fault_by(alloc, &setup, text)
}

fn fault_by(alloc: Global, setup: &Setup, text: &str) -> Option<AuditFault> {
    let rows = rows_of(alloc, &setup.job, TWO_PAYMENTS)?;
    let start = Start::first(alloc, setup).ok()?;
    match check_text(alloc, setup, &start, &REFUSED, &rows, text.as_bytes()) {
        Ok(_) => None,
        Err(fault) => Some(fault),
    }
}

/// Records after the header, and their first fault.
const TEXTS: [(&str, Option<AuditFault>); 7] = [
    (
        "refused,,,,2,Q4\nfed,,,,1,\nfed,,,,2,\nstopped,,,,,\n",
        None,
    ),
    (
        "fed,,,,1,\nfed,,,,2,\nstopped,,,,,\n",
        Some(AuditFault::Refused(1)),
    ),
    (
        "refused,,,,2,Q5\nfed,,,,1,\nfed,,,,2,\nstopped,,,,,\n",
        Some(AuditFault::Refused(1)),
    ),
    (
        "refused,,,,2,Q4\nrefused,,,,3,Q4\nfed,,,,1,\nfed,,,,2,\nstopped,,,,,\n",
        Some(AuditFault::Refused(2)),
    ),
    (
        "refused,,,,2,Q4\nfed,,,,1,\nfed,,,,3,\nstopped,,,,,\n",
        Some(AuditFault::Feed(3)),
    ),
    (
        "refused,,,,2,Q4\nfed,,,,1,\nfed,,,,2,\n",
        Some(AuditFault::Feed(4)),
    ),
    (
        "refused,,,,2,Q5\nfed,,,,1,\nfed,,,,3,\nstopped,,,,0,\n",
        Some(AuditFault::Shape(4)),
    ),
];

fn fault_with(rt: &(impl AllocGlobal + Abort), records: &str) -> Option<AuditFault> {
    let text = format!(in rt.alloc(); "entry,node,worker,lane,number,extra\n{records}");
    fault_of(rt.alloc(), text.expect(rt, "memory").as_str())
}

#[test]
fn the_first_code_is_answered(rt: HostRuntime) {
    for case in TEXTS {
        assert_eq!(rt; fault_with(&rt, case.0), case.1, "{}", case.0);
    }
}
