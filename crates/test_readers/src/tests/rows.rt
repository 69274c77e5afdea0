// The rows of payments files, and their faults.
use super::fixtures::{check, job_in, joined, lines_of_rows, repeated};
use crate::tests::check_text;
use jobs::{Job, weight};
use payments::{PFault, read_rows};
use std::process::Abort;

const CARD: &str = "[[node]]
name = \"card\"
kind = \"source\"
";

/// A job of a source `card`, another source, and what stands behind them.
pub fn job_of(rt: &(impl AllocGlobal + Abort), columns: &str, behind: &str) -> Box<Job> {
    job_in(rt, &["columns = [", columns, "]\n", CARD, behind])
}

/// A sink behind the source.
pub const ONE_SOURCE: &str = "[[node]]
name = \"alerts\"
kind = \"sink\"
columns = []
[[edge]]
from = \"card\"
to = \"alerts\"
";

/// A second source, and a map before the sink.
pub const TWO_SOURCES: &str = "[[node]]
name = \"wire\"
kind = \"source\"
[[node]]
name = \"big\"
kind = \"map\"
steps = []
[[node]]
name = \"alerts\"
kind = \"sink\"
columns = []
[[edge]]
from = \"card\"
to = \"big\"
[[edge]]
from = \"wire\"
to = \"big\"
[[edge]]
from = \"big\"
to = \"alerts\"
";

pub const PLAIN: &str = "\"account:text\", \"merchant:text\", \"amount:cents\", \"tags:text\"";

/// How many rows a file of payments has, or its fault.
pub type Answer = Result<usize, PFault>;

fn answer(rt: &(impl AllocGlobal + Abort), job: &Job, payments: &[u8]) -> Answer {
    match read_rows(rt.alloc(), job, payments) {
        Ok(rows) => Ok(rows.len()),
        Err(fault) => Err(fault),
    }
}

fn check_answers(
    rt: &(impl AllocGlobal + Abort),
    columns: &str,
    behind: &str,
    cases: &[(&[u8], Answer)],
) {
    let job = job_of(rt, columns, behind);
    for (payments, want) in cases {
        check(rt, answer(rt, &job, payments), *want);
    }
}

/// Columns, what stands behind the source, payments, and their rows as lines.
type Case = (&'static str, &'static str, &'static [u8], &'static str);

fn check_rows(rt: &(impl AllocGlobal + Abort), cases: &[Case]) {
    for (columns, behind, payments, want) in cases {
        check_lines(rt, &job_of(rt, columns, behind), payments, want);
    }
}

fn check_lines(rt: &(impl AllocGlobal + Abort), job: &Job, payments: &[u8], want: &str) {
    let rows = read_rows(rt.alloc(), job, payments).expect(rt, "rows");
    check_text(rt, lines_of_rows(rt, rows.as_slice()).as_bytes(), want);
}

/// A seventh row that is short, and an amount with a third digit.
static FAULTS: &[(&[u8], Answer)] = &[
    (
        b"source,account,merchant,amount,tags
card,a,m,99.99,
card,a,m,99.99,
card,a,m,99.99,
card,a,m,99.99,
card,a,m,99.99,
card,a,m,99.99,
card,a,m,99.99
",
        Err(PFault::Length(7)),
    ),
    (
        b"source,account,merchant,amount,tags\ncard,a,m,1.234,\n",
        Err(PFault::Value(1, 2)),
    ),
];

#[test]
fn payment_faults(rt: HostRuntime) {
    check_answers(&rt, PLAIN, ONE_SOURCE, FAULTS);
}

static QUOTED: &[Case] = &[(
    PLAIN,
    ONE_SOURCE,
    b"source,account,merchant,amount,tags\r\ncard,ann,\"A, \"\"B\"\" Ltd\",12.00,\r\n",
    " 0.1 ann A, \"B\" Ltd 1200 \n",
)];

#[test]
fn quoted_merchant(rt: HostRuntime) {
    check_rows(&rt, QUOTED);
}

const WHO_AND_SUM: &str = "\"who:text\", \"sum:cents\"";

static FORMS: &[(&[u8], Answer)] = &[
    (b"", Err(PFault::NoHeader)),
    (b"\r\n\n", Err(PFault::NoHeader)),
    (b"source,who,sum", Ok(0)),
    (b"source,who,sum\n", Ok(0)),
    (b"source,who\n", Err(PFault::Header)),
    (b"source,who,sum,\n", Err(PFault::Header)),
    (b"source,sum,who\n", Err(PFault::Header)),
    (b"Source,who,sum\n", Err(PFault::Header)),
    (b"\xef\xbb\xbfsource,who,sum\ncard,ann,1\nwire,bob,2", Ok(2)),
    (b"\nsource,who,sum\n\n\r\ncard,ann,1\n\n", Ok(1)),
    (b"source,who,sum\ncard,\"ann,1\n", Err(PFault::Length(1))),
    (b"source,who,sum\ncard,\"ann\",\"1", Ok(1)),
    (
        b"source,who,sum\ncard,ann,1\nbig,bob,x\n",
        Err(PFault::Source(2)),
    ),
    (b"source,who,sum\nnone,ann\n", Err(PFault::Length(1))),
    (
        b"source,who,sum\ncard,0123456789012345678901234567890123456789012345678,x\n",
        Err(PFault::TextLong(1, 0)),
    ),
];

#[test]
fn payments_of_every_form(rt: HostRuntime) {
    check_answers(&rt, WHO_AND_SUM, TWO_SOURCES, FORMS);
}

/// A cell, and the fields that it is read as in a column of numbers and in one of cents. `None` is
/// a fault.
static SPELLINGS: &[(&str, Option<&str>, Option<&str>)] = &[
    ("12", Some("12"), Some("1200")),
    ("12.5", None, Some("1250")),
    ("12.50", None, Some("1250")),
    ("12.505", None, None),
    ("-0.05", None, Some("-5")),
    ("-007", Some("-7"), Some("-700")),
    (".5", None, None),
    ("1.", None, None),
    ("1.-5", None, None),
    ("1.2.3", None, None),
    ("+1", None, None),
    ("-", None, None),
    ("--1", None, None),
    ("", None, None),
    ("92233720368547758.07", None, Some("9223372036854775807")),
    ("92233720368547758.08", None, None),
    ("-92233720368547758.08", None, Some("-9223372036854775808")),
    ("-92233720368547758.09", None, None),
    ("9223372036854775807", Some("9223372036854775807"), None),
    ("-9223372036854775808", Some("-9223372036854775808"), None),
    ("-9223372036854775809", None, None),
    ("18446744073709551617", None, None),
    (
        "000000000000000000000000000000042",
        Some("42"),
        Some("4200"),
    ),
];

// Checks what a cell is read as in a column of this kind.
fn check_cell(rt: &(impl AllocGlobal + Abort), column: &str, cell: &str, want: Option<&str>) {
    let job = job_of(rt, column, ONE_SOURCE);
    let text = joined(rt, &["source,a\ncard,", cell, "\n"]);
    match want {
        Some(field) => {
            let line = joined(rt, &[" 0.1 ", field, "\n"]);
            check_lines(rt, &job, text.as_bytes(), line.as_str());
        }
        None => check(
            rt,
            answer(rt, &job, text.as_bytes()),
            Err(PFault::Value(1, 0)),
        ),
    }
}

#[test]
fn numbers_and_amounts(rt: HostRuntime) {
    for (cell, number, cents) in SPELLINGS {
        check_cell(&rt, "\"a:number\"", cell, *number);
        check_cell(&rt, "\"a:cents\"", cell, *cents);
    }
}

const OWN_BETWEEN: &str =
    "\"risk:number:own\", \"who:text\", \"note:text:own\", \"seen:cents:own\", \"sum:cents\"";

static BEHIND_OWN: &[(&[u8], Answer)] = &[
    (b"source,who,sum\ncard,ann,x\n", Err(PFault::Value(1, 4))),
    (
        b"source,who,sum\ncard,0123456789012345678901234567890123456789012345678,1\n",
        Err(PFault::TextLong(1, 1)),
    ),
    (b"source,risk,who,note,seen,sum\n", Err(PFault::Header)),
    (
        b"source,who,sum\ncard,012345678901234567890123456789012345678901234567,1\n",
        Ok(1),
    ),
];

static AROUND_OWN: &[Case] = &[(
    OWN_BETWEEN,
    TWO_SOURCES,
    b"source,who,sum\nwire,ann,1.5\ncard,bob,2\n",
    " 1.1 0 ann  0 150\n 0.2 0 bob  0 200\n",
)];

#[test]
fn own_columns_in_between(rt: HostRuntime) {
    check_rows(&rt, AROUND_OWN);
    check_answers(&rt, OWN_BETWEEN, TWO_SOURCES, BEHIND_OWN);
}

/// Two splits into 16 and two maps before the sink. The weights are 1 at s, 16 at t, and 256 at
/// each of a, b and the sink.
const HEAVY: &str = "[[node]]
name = \"s\"
kind = \"split\"
on = \"tags\"
by = \";\"
most = 16
[[node]]
name = \"t\"
kind = \"split\"
on = \"tags\"
by = \";\"
most = 16
[[node]]
name = \"a\"
kind = \"map\"
steps = []
[[node]]
name = \"b\"
kind = \"map\"
steps = []
[[node]]
name = \"alerts\"
kind = \"sink\"
columns = []
[[edge]]
from = \"card\"
to = \"s\"
[[edge]]
from = \"s\"
to = \"t\"
[[edge]]
from = \"t\"
to = \"a\"
[[edge]]
from = \"a\"
to = \"b\"
[[edge]]
from = \"b\"
to = \"alerts\"
";

#[test]
fn first_row_past_the_limit(rt: HostRuntime) {
    let job = job_of(&rt, "\"tags:text:own\"", HEAVY);
    check(&rt, weight(&job), 785);
    let most = repeated(&rt, "source\n", "card\n", 1335);
    check(&rt, answer(&rt, &job, most.as_bytes()), Ok(1335));
    let more = joined(&rt, &[most.as_str(), "card,more\n"]);
    check(
        &rt,
        answer(&rt, &job, more.as_bytes()),
        Err(PFault::TooMuch(1336)),
    );
}

const TWELVE: &str =
    "\"a:number\", \"b:number\", \"c:number\", \"d:number\", \"e:number\", \"f:number\",
\"g:number\", \"h:number\", \"i:number\", \"j:number\", \"k:number\", \"l:number\"";

static COLUMNS: &[Case] = &[
    (
        TWELVE,
        ONE_SOURCE,
        b"source,a,b,c,d,e,f,g,h,i,j,k,l\ncard,1,2,3,4,5,6,7,8,9,10,11,12\n",
        " 0.1 1 2 3 4 5 6 7 8 9 10 11 12\n",
    ),
    (
        "\"a:number\"",
        ONE_SOURCE,
        b"source,a\ncard,1\ncard,-1\n",
        " 0.1 1\n 0.2 -1\n",
    ),
    (
        "\"a:number:own\"",
        ONE_SOURCE,
        b"source\ncard\ncard\n",
        " 0.1 0\n 0.2 0\n",
    ),
];

#[test]
fn columns_of_every_number(rt: HostRuntime) {
    check_rows(&rt, COLUMNS);
}
