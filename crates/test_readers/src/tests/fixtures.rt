// Jobs, requests and rows that are read from texts in pieces, and rows and outputs written down as
// lines. What a test can't do without is expected here, so that its own functions are straight
// lines.
ghost use Rattle.job_file.specs.RequestSizes.{AreFew, AreUpTo};

use job_file::{JobFault, read_job, read_requests, read_requests_up_to};
use jobs::Job;
use operators::Output;
use payments::read_rows;
use std::alloc::AllocError;
use std::fmt::Debug;
use std::process::Abort;
use std::str;
use text_threads::Text;
use tuple_trace::{Bytes, Row, Rows, Tuple, Value};
use versions::{MAX_STREAM_REQUESTS, Requests};

/// Asserts that a value is the one that is wanted.
pub fn check<T: PartialEq + Debug + Drop>(rt: &impl Abort, found: T, want: T) {
    assert_eq!(rt; found, want);
}

/// All parts of a text, one behind another.
pub fn whole(rt: &(impl AllocGlobal + Abort), text: &Text) -> Bytes {
    let mut bytes = Bytes::new(rt.alloc());
    for part in text.parts() {
        bytes
            .extend_from_slice(part.as_slice())
            .expect(rt, "memory");
    }
    bytes
}

/// Adds a text that was formatted.
pub fn push(rt: &impl Abort, text: &mut String, more: Result<String, AllocError>) {
    let more = more.expect(rt, "memory");
    text.push_str(more.as_str()).expect(rt, "memory");
}

/// The pieces, one after another.
pub fn joined(rt: &(impl AllocGlobal + Abort), pieces: &[&str]) -> String {
    let mut text = String::new(rt.alloc());
    for piece in pieces {
        text.push_str(piece).expect(rt, "memory");
    }
    text
}

/// A text, and a piece that follows it so many times.
pub fn repeated(rt: &(impl AllocGlobal + Abort), head: &str, piece: &str, count: u32) -> String {
    let mut text = joined(rt, &[head]);
    for _ in 0..count {
        text.push_str(piece).expect(rt, "memory");
    }
    text
}

/// What a reader makes of the bytes of a job file. The job stands in a box, so that a function that
/// holds it is proved quickly.
pub fn read_bytes(rt: &(impl AllocGlobal + Abort), bytes: &[u8]) -> Result<Box<Job>, JobFault> {
    let job = read_job(rt.alloc(), bytes)?;
    Ok(Box::new(rt.alloc(), job).expect(rt, "memory"))
}

/// What a reader makes of a job file in pieces.
pub fn read(rt: &(impl AllocGlobal + Abort), pieces: &[&str]) -> Result<Box<Job>, JobFault> {
    read_bytes(rt, joined(rt, pieces).as_bytes())
}

/// The job of a text in pieces.
pub fn job_in(rt: &(impl AllocGlobal + Abort), pieces: &[&str]) -> Box<Job> {
    read(rt, pieces).expect(rt, "a job")
}

/// The requests of a text in pieces.
pub fn requests_in(rt: &(impl AllocGlobal + Abort), job: &Job, pieces: &[&str]) -> Requests
    ensures few { AreFew result }
{
    let text = joined(rt, pieces);
    read_requests(rt.alloc(), job, text.as_bytes()).expect(rt, "requests")
}

/// The requests of a text in pieces, of which there may be as many as a stream has.
pub fn stream_requests_in(rt: &(impl AllocGlobal + Abort), job: &Job, pieces: &[&str]) -> Requests
    ensures few { AreUpTo MAX_STREAM_REQUESTS result }
{
    let text = joined(rt, pieces);
    read_requests_up_to(rt.alloc(), job, text.as_bytes(), MAX_STREAM_REQUESTS).expect(
        rt, "requests",
    )
}

/// Two texts, an amount and a number, and a table of the risk of an account.
pub const GIVEN: &str =
    "columns = [\"account:text\", \"tags:text\", \"amount:cents\", \"risk:number\"]
[tables.risks]
ann = 3
\"\" = 5
";

/// As many columns, each of another kind.
pub const TURNED: &str =
    "columns = [\"account:number\", \"tags:number\", \"amount:text\", \"risk:text\"]\n";

/// One column alone, of another kind.
pub const BARE: &str = "columns = [\"account:number:own\"]\n";

/// One sink behind the node.
pub const ONE_WAY: &str = "[[node]]
name = \"out\"
kind = \"sink\"
columns = []
[[edge]]
from = \"in\"
to = \"x\"
[[edge]]
from = \"x\"
to = \"out\"
";

/// A sink on each of two ports.
pub const TWO_WAYS: &str = "[[node]]
name = \"out\"
kind = \"sink\"
columns = []
[[node]]
name = \"other\"
kind = \"sink\"
columns = []
[[edge]]
from = \"in\"
to = \"x\"
[[edge]]
from = \"x\"
to = \"out\"
[[edge]]
from = \"x\"
to = \"other\"
port = 1
";

const IN_AND_X: &str = "[[node]]
name = \"in\"
kind = \"source\"
[[node]]
name = \"x\"
";

/// A job of a source `in`, a node `x` with this function, and sinks behind it.
pub fn job_of(rt: &(impl AllocGlobal + Abort), columns: &str, func: &str, ways: &str) -> Box<Job> {
    job_in(rt, &[columns, IN_AND_X, func, ways])
}

/// The rows of payments with these columns, all from the source `in`.
pub fn rows_of(rt: &(impl AllocGlobal + Abort), columns: &str, payments: &str) -> Rows {
    let job = job_of(rt, columns, "kind = \"map\"\nsteps = []\n", ONE_WAY);
    read_rows(rt.alloc(), &job, payments.as_bytes()).expect(rt, "rows")
}

/// A line for each output: its port, `+` and each birth, `#` and the row, `.` and the requests that
/// were issued, `@` and each visit, and the fields.
pub fn lines_of_outputs(rt: &(impl AllocGlobal + Abort), outputs: &[Output]) -> String {
    let mut lines = String::new(rt.alloc());
    for output in outputs {
        push(rt, &mut lines, format!(in rt.alloc(); " {}", output.port));
        add_origin(rt, &mut lines, &output.tuple);
        add_fields(rt, &mut lines, output.tuple.fields.as_slice());
    }
    lines
}

fn add_origin(rt: &(impl AllocGlobal + Abort), lines: &mut String, tuple: &Tuple) {
    for birth in tuple.birth.as_slice() {
        push(rt, lines, format!(in rt.alloc(); "+{birth}"));
    }
    push(
        rt,
        lines,
        format!(in rt.alloc(); "#{}.{}", tuple.row, tuple.issued),
    );
    for place in 0..tuple.trace.len() {
        let visit = tuple.trace.get(place).expect(rt, "a visit");
        push(
            rt,
            lines,
            format!(in rt.alloc(); "@{}.{}.{}", visit.node, visit.worker, visit.last),
        );
    }
}

/// A line for each row: its source, `.` and its number, and the fields.
pub fn lines_of_rows(rt: &(impl AllocGlobal + Abort), rows: &[Row]) -> String {
    let mut lines = String::new(rt.alloc());
    for row in rows {
        push(
            rt,
            &mut lines,
            format!(in rt.alloc(); " {}.{}", row.source, row.tuple.row),
        );
        add_fields(rt, &mut lines, row.tuple.fields.as_slice());
    }
    lines
}

fn add_fields(rt: &(impl AllocGlobal + Abort), lines: &mut String, fields: &[Value]) {
    for field in fields {
        push(rt, lines, field_text(rt, field));
    }
    lines.push('\n').expect(rt, "memory");
}

fn field_text(rt: &(impl AllocGlobal + Abort), field: &Value) -> Result<String, AllocError> {
    match field {
        Value::Num(number) => format!(in rt.alloc(); " {number}"),
        Value::Text(text) => {
            let text = str::from_utf8(text.as_slice()).expect(rt, "UTF-8");
            format!(in rt.alloc(); " {text}")
        }
    }
}
