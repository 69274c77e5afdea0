use crate::tests::run::RUN;
use crate::tests::{CALL, Case, Ran, Wanted, check_all, check_over};
use flow_replay::{FuncTable, Landing, alone};
use jobs::{ColumnKind, Job};
use std::alloc::Global;
use std::process::Abort;
use std::str;
use std::sync::Wait;
use std::thread::Threads;
use test_runs::{job_of, rows_of};
use test_texts::{CHAIN, FOUR_PAYMENTS, same_lines};
use tuple_trace::{Bytes, NoMemory, Row, Value};

/// Two sources, a split into as many pieces as there may be, `counted` with eight workers, and a
/// replicate whose eight ways meet in a sink. The map on the first way has these steps.
fn wide(alloc: Global, counted: &str, steps: &str) -> Result<String, NoMemory> {
    Ok(format!(in alloc;
        r#"
columns = ["tags:text", "seen:number:own"]
node = [
  {{ name = "p", kind = "source" }},
  {{ name = "q", kind = "source" }},
  {{ name = "s", kind = "split", on = "tags", by = ";", most = 16 }},
  {{ name = "c", workers = 8, {counted} }},
  {{ name = "r", kind = "replicate" }},
  {{ name = "m0", kind = "map", steps = [{steps}] }},
{MAPS}  {{ name = "out", kind = "sink", columns = ["tags", "seen"] }},
]
edge = [
  {{ from = "p", to = "s" }},
  {{ from = "q", to = "s" }},
  {{ from = "s", to = "c" }},
  {{ from = "c", to = "r" }},
{WAYS}]
"#
    )?)
}

const MAPS: &str = r#"  { name = "m1", kind = "map", steps = [] },
  { name = "m2", kind = "map", steps = [] },
  { name = "m3", kind = "map", steps = [] },
  { name = "m4", kind = "map", steps = [] },
  { name = "m5", kind = "map", steps = [] },
  { name = "m6", kind = "map", steps = [] },
  { name = "m7", kind = "map", steps = [] },
"#;

const WAYS: &str = r#"  { from = "r", to = "m0" },
  { from = "r", port = 1, to = "m1" },
  { from = "r", port = 2, to = "m2" },
  { from = "r", port = 3, to = "m3" },
  { from = "r", port = 4, to = "m4" },
  { from = "r", port = 5, to = "m5" },
  { from = "r", port = 6, to = "m6" },
  { from = "r", port = 7, to = "m7" },
  { from = "m0", to = "out" },
  { from = "m1", to = "out" },
  { from = "m2", to = "out" },
  { from = "m3", to = "out" },
  { from = "m4", to = "out" },
  { from = "m5", to = "out" },
  { from = "m6", to = "out" },
  { from = "m7", to = "out" },
"#;

const COUNT: &str = r#"kind = "count", key = "tags", add = 1, into = "seen""#;

const MAP: &str = r#"kind = "map", steps = [["seen", "add", "seen", 5]]"#;

/// Rows of sixteen pieces, of one, of three and of two: 22 in all.
const PIECES: &str = "source,tags
p,a;b;c;d;e;f;g;h;i;j;k;l;m;n;o;p
q,a
q,x;;y
p,a;b
";

/// Adds a field as an alert shows it, after a comma. It needs no quotes, and no sign.
fn push_field(
    alloc: Global,
    kind: ColumnKind,
    field: &Value,
    lines: &mut Bytes,
) -> Result<(), NoMemory> {
    lines.push(b',')?;
    match field {
        Value::Text(text) => lines.extend_from_slice(text.as_slice()),
        Value::Num(number) => push_number(alloc, kind, *number, lines),
    }
}

fn push_number(
    alloc: Global,
    kind: ColumnKind,
    number: i64,
    lines: &mut Bytes,
) -> Result<(), NoMemory> {
    let text = match kind {
        ColumnKind::Cents => format!(in alloc; "{}.{:02}", number / 100, number % 100),
        _ => format!(in alloc; "{number}"),
    };
    lines.extend_from_slice(text?.as_bytes())
}

/// A job that rows are sent through by themselves, one function for each node, and the name of its
/// sink.
#[derive(Drop)]
struct Path<'a> {
    alloc: Global,
    job: &'a Job,
    table: &'a FuncTable,
    sink: &'a str,
}

impl Path<'_> {
    /// Adds the alert of what came to the sink.
    fn push_alert(&self, landing: &Landing, lines: &mut Bytes) -> Result<(), NoMemory> {
        let start = format!(in self.alloc; "{},{}", self.sink, landing.row)?;
        lines.extend_from_slice(start.as_bytes())?;
        self.push_fields(landing.fields.as_slice(), lines)?;
        lines.push(b'\n')
    }

    fn push_fields(&self, fields: &[Value], lines: &mut Bytes) -> Result<(), NoMemory> {
        for (column, field) in self.job.columns.iter().zip(fields) {
            push_field(self.alloc, column.kind, field, lines)?;
        }
        Ok(())
    }

    fn push_alerts(&self, landings: &[Landing], lines: &mut Bytes) -> Result<(), NoMemory> {
        for landing in landings {
            self.push_alert(landing, lines)?;
        }
        Ok(())
    }

    /// Adds the alerts of a row.
    fn push_row(&self, row: &Row, lines: &mut Bytes) -> Result<(), NoMemory> {
        let landings = alone(self.alloc, self.job, self.table, row)?;
        self.push_alerts(landings.as_slice(), lines)
    }

    /// Adds the alerts of the rows whose flag is `old`.
    fn push_rows(
        &self,
        rows: &[Row],
        olds: &[bool],
        old: bool,
        lines: &mut Bytes,
    ) -> Result<(), NoMemory> {
        for (row, is_old) in rows.iter().zip(olds) {
            if *is_old == old {
                self.push_row(row, lines)?;
            }
        }
        Ok(())
    }
}

/// The functions of a job, one for each node.
fn funcs(alloc: Global, job: &Job) -> Result<FuncTable, NoMemory> {
    let mut table = FuncTable::new(alloc);
    for node in &job.nodes {
        table.push(node.func.clone()?)?;
    }
    Ok(table)
}

/// A job in a box: that is one part to drop.
fn boxed(alloc: Global, job: &str) -> Option<Box<Job>> {
    Box::new(alloc, job_of(alloc, job)?).ok()
}

/// Adds the alerts of the rows whose flag is `old`. Each is sent through this job by itself.
fn push_job(
    alloc: Global,
    job: &str,
    rows: ByThemselves<'_>,
    olds: &[bool],
    old: bool,
    lines: &mut Bytes,
) -> Result<(), NoMemory> {
    let job = boxed(alloc, job).ok_or(NoMemory)?;
    let table = funcs(alloc, &job)?;
    let all = rows_of(alloc, &job, rows.payments).ok_or(NoMemory)?;
    let path = Path {
        alloc,
        job: &job,
        table: &table,
        sink: rows.sink,
    };
    path.push_rows(all.as_slice(), olds, old, lines)
}

/// Rows that are sent through a job by themselves: each through the old one if its flag is set,
/// else through the new one.
#[derive(Clone, Copy)]
pub struct ByThemselves<'a> {
    old: &'a str,
    new: &'a str,
    sink: &'a str,
    payments: &'a str,
    /// The flags of all rows, in each way that may be.
    ways: &'a [[bool; 4]],
}

/// The alerts of these rows with these flags.
fn wanted(alloc: Global, rows: ByThemselves<'_>, olds: &[bool]) -> Result<Bytes, NoMemory> {
    let mut lines = Bytes::new(alloc);
    push_job(alloc, rows.old, rows, olds, true, &mut lines)?;
    push_job(alloc, rows.new, rows, olds, false, &mut lines)?;
    Ok(lines)
}

/// Whether the alerts are a header and those of these rows in one of the ways, in any order.
/// `false` if memory runs out.
pub fn are_alerts(alloc: Global, alerts: &[u8], rows: ByThemselves<'_>) -> bool {
    let mut found = false;
    for olds in rows.ways {
        found |= are_those(alloc, alerts, rows, olds);
    }
    found
}

fn are_those(alloc: Global, alerts: &[u8], rows: ByThemselves<'_>, olds: &[bool]) -> bool {
    match wanted(alloc, rows, olds) {
        Ok(lines) => are_lines(alerts, lines.as_slice()),
        Err(_) => false,
    }
}

/// Whether a header and then these lines stand here, in any order.
fn are_lines(alerts: &[u8], lines: &[u8]) -> bool {
    match (str::from_utf8(alerts), str::from_utf8(lines)) {
        (Ok(alerts), Ok(lines)) => match alerts.split_once('\n') {
            Some((_, rest)) => same_lines(rest, lines),
            None => false,
        },
        _ => false,
    }
}

/// Rows 1 and 2 may be old, rows 3 and 4 are new.
const WAYS_OF_ROWS: [[bool; 4]; 4] = [
    [false, false, false, false],
    [false, true, false, false],
    [true, false, false, false],
    [true, true, false, false],
];

/// Checks a run of this job, a wide one.
fn check_wide<'a, R>(rt: &R, job: &'a str, requests: &'a str, alerts: Wanted<'a>, out: &'a str)
where
    R: AllocGlobal + Abort + Threads + Wait + Copy + Send + Sync + 'static,
{
    let files = [
        ("job.toml", job),
        ("requests.toml", requests),
        ("payments.csv", PIECES),
    ];
    let case = Case {
        alerts,
        audit: Wanted::Any,
        out,
        ..RUN
    };
    check_over(rt, &files, &case);
}

/// Checks a run of the wide job that counts over eight workers. Some alerts are left.
fn check_count<R>(rt: &R, out: &str)
where
    R: AllocGlobal + Abort + Threads + Wait + Copy + Send + Sync + 'static,
{
    let job = wide(rt.alloc(), COUNT, "").expect(rt, "memory");
    check_wide(rt, job.as_str(), "", Wanted::Something, out);
}

#[test]
fn counts_over_eight_workers(rt: HostRuntime) {
    check_count(&rt, "rows 4 alerts 176 requests 0 refused 0\n");
}

fn wide_alone<'a>(old: &'a str, new: &'a str) -> Wanted<'a> {
    Wanted::Alone(ByThemselves {
        old,
        new,
        sink: "out",
        payments: PIECES,
        ways: &WAYS_OF_ROWS,
    })
}

/// Checks a run of the wide job with these requests: its alerts are those of its rows by
/// themselves. The new job has this step in the map on the first way.
fn check_rows<R>(rt: &R, requests: &str, step: &str, out: &str)
where
    R: AllocGlobal + Abort + Threads + Wait + Copy + Send + Sync + 'static,
{
    let old = wide(rt.alloc(), MAP, "").expect(rt, "memory");
    let new = wide(rt.alloc(), MAP, step).expect(rt, "memory");
    let alerts = wide_alone(old.as_str(), new.as_str());
    check_wide(rt, old.as_str(), requests, alerts, out);
}

#[test]
fn rows_by_themselves(rt: HostRuntime) {
    check_rows(&rt, "", "", "rows 4 alerts 176 requests 0 refused 0\n");
}

/// Gives the map on the first way a step, after row 2.
const ADD_SEVEN: &str = r#"
[[request]]
after = 2
change = [{ node = "m0", from = 0, kind = "map", steps = [["seen", "add", "seen", 7]] }]
"#;

#[test]
fn each_row_by_one_table(rt: HostRuntime) {
    let step = r#"["seen", "add", "seen", 7]"#;
    let out = "rows 4 alerts 176 requests 1 refused 0\n";
    check_rows(&rt, ADD_SEVEN, step, out);
}

/// The four payments, all through the chain.
static FOUR_ALONE: [Case<'static>; 1] = [Case {
    files: &[("pay.csv", FOUR_PAYMENTS)],
    line: "first pay.csv alerts.csv 10000 99 5000",
    alerts: Wanted::Alone(ByThemselves {
        old: CHAIN,
        new: CHAIN,
        sink: "alerts",
        payments: FOUR_PAYMENTS,
        ways: &[[true; 4]],
    }),
    audit: Wanted::Any,
    out: "rows 4 alerts 2 requests 1 refused 0\n",
    ran: Ran::Something,
    ..CALL
}];

#[test]
fn four_payments_by_themselves(rt: HostRuntime) {
    check_all(&rt, &FOUR_ALONE);
}
