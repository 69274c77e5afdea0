ghost use Rattle.std.specs.Prelude.{◌≡◌, ◌≢◌, ◌≤◌, ◌<◌, ◌*◌, ◌%◌, All, Ok, Err, IfOk, IfErr, OnOk};
ghost use Rattle.std.specs.Prelude.{length};
ghost use Rattle.jobs.specs.Job.{job_view};
ghost use Rattle.jobs.specs.Nodes.{AreFromSources};
ghost use Rattle.jobs.specs.Weights.{weight as weight_of};
ghost use Rattle.jobs.specs.Limits.{HasShortTexts};
ghost use Rattle.tuple_trace.specs.declared.row.Row.{Row as RowIs};
ghost use Rattle.payments.specs.Made.{draw_of, field_made, fields_made, last_digit, made_rows};
ghost use Rattle.payments.specs.Made.{number_after, number_after_field, number_after_fields};
ghost use Rattle.payments.specs.Made.{number_after_row, row_made, rows_made_from, sources_from};
ghost use Rattle.payments.specs.Made.{text_made, value_made};
ghost use Rattle.payments.specs.Reading.{work_max};

use crate::PFault;
use crate::cells::{first_value, no_fields};
use crate::row::WORK_MAX;
use jobs::{Column, ColumnKind, Job, is_source, weight};
use std::alloc::Global;
use tuple_trace::{Births, Fields, NoMemory, Row, Rows, Tuple, Txt, Value, Visits};

/// So many rows for this job, as a generator makes them that starts from the seed.
///
/// The generator's number is multiplied by 6364136223846793005 and raised by 1442695040888963407,
/// modulo 2^64, for each draw. The draw is its highest 31 bits. Each row has one draw for its
/// source, and one for each column that isn't own. A text is three keys such as `k1;k0;k9`, and a
/// number is 0 to 20000.
///
/// # Errors
///
/// [`PFault::TooMuch`] if the number of rows times the weight of the job is above 1,048,576. It
/// names the first row beyond the limit. The one other answer is out of memory.
pub fn make_rows(alloc: Global, job: &Job, seed: u64, rows: u64) -> Result<Rows, PFault>
    ensures ok { IfOk result (λ made. made_rows (job_view job.now) seed rows ≡ Ok made) }
    ensures sources { IfOk result (λ made. AreFromSources (job_view job.now) made) }
    ensures work { IfOk result (λ made. length made * weight_of (job_view job.now) ≤ work_max) }
    ensures texts { IfOk result (λ made. All (λ (row : RowIs). HasShortTexts row.tuple) made) }
    ensures fault { IfErr result (λ fault. fault ≢ PFault.NoMemory
        → made_rows (job_view job.now) seed rows ≡ Err fault) }
{
    let weight = weight(job);
    if rows.saturating_mul(weight) > WORK_MAX {
        return Err(PFault::TooMuch(WORK_MAX / weight + 1));
    }
    let sources = sources_of(alloc, job)?;
    let mut draws = Draws { number: seed };
    let mut made = Rows::new(alloc);
    for row in 0..rows {
        made.push(row_of(alloc, job, &sources, row + 1, &mut draws)?)?;
    }
    Ok(made)
}

/// The numbers of the nodes at which rows enter, in order. A lawful job has one at least.
fn sources_of(alloc: Global, job: &Job) -> Result<Vec<u32>, NoMemory>
    ensures sources { IfOk result (λ sources. sources.items ≡ sources_from 0 job.now.nodes) }
    ensures some { IfOk result (λ sources. 0 < length sources.items) }
{
    let mut sources = Vec::new(alloc);
    let nodes = job.nodes.as_slice();
    for node in 0..job.dag.nodes() {
        if is_source(&nodes[node as usize].func) {
            sources.push(node)?;
        }
    }
    Ok(sources)
}

/// The generator of numbers.
#[derive(Drop)]
struct Draws {
    number: u64,
}

impl Draws {
    /// The next draw, below 2^31.
    fn next(&mut self) -> u64
        ensures number { self.new.number ≡ number_after self.old.number }
        ensures draw { result ≡ draw_of self.new.number }
    {
        self.number = self
            .number
            .wrapping_mul(6_364_136_223_846_793_005)
            .wrapping_add(1_442_695_040_888_963_407);
        self.number >> 33
    }
}

fn row_of(
    alloc: Global,
    job: &Job,
    sources: &[u32],
    row: u64,
    draws: &mut Draws,
) -> Result<Row, NoMemory>
    requires sources { sources.now ≡ sources_from 0 job.now.nodes }
    requires some { 0 < length sources.now }
    ensures ok { IfOk result (λ made. made ≡ row_made (job_view job.now) draws.old.number row) }
    ensures draws { OnOk result (draws.new.number
        ≡ number_after_row (job_view job.now) draws.old.number) }
{
    let source = sources[draws.next() as usize % sources.len()];
    Ok(Row {
        source,
        tuple: Tuple {
            row,
            birth: Births::new(alloc),
            issued: 0,
            fields: fields_of(alloc, job.columns.as_slice(), draws)?,
            trace: Visits::new(alloc),
        },
    })
}

fn fields_of(alloc: Global, columns: &[Column], draws: &mut Draws) -> Result<Fields, NoMemory>
    ensures ok { IfOk result (λ fields. fields ≡ fields_made columns.now draws.old.number) }
    ensures draws { OnOk result (draws.new.number
        ≡ number_after_fields columns.now draws.old.number) }
{
    let mut fields = no_fields(alloc, columns)?;
    for column in columns {
        let field = field_of(alloc, column, draws)?;
        fields.push(field)?;
    }
    Ok(Fields::shared(fields)?)
}

fn field_of(alloc: Global, column: &Column, draws: &mut Draws) -> Result<Value, NoMemory>
    ensures ok { IfOk result (λ field. field ≡ field_made column.now draws.old.number) }
    ensures draws { OnOk result (draws.new.number
        ≡ number_after_field column.now draws.old.number) }
{
    if column.own {
        return Ok(first_value(alloc, column.kind));
    }
    value_of(alloc, column.kind, draws.next())
}

fn value_of(alloc: Global, kind: ColumnKind, draw: u64) -> Result<Value, NoMemory>
    ensures { IfOk result (λ value. value ≡ value_made kind draw) }
{
    match kind {
        ColumnKind::Text => Ok(Value::Text(Txt::from_slice(alloc, &text_of(draw))?)),
        ColumnKind::Number | ColumnKind::Cents => Ok(Value::Num((draw % 20_001) as i64)),
    }
}

/// Three keys, each with one of the last three digits of the draw.
fn text_of(draw: u64) -> [u8; 8]
    ensures { result ≡ text_made draw }
{
    [
        b'k',
        last_digit(draw),
        b';',
        b'k',
        last_digit(draw / 10),
        b';',
        b'k',
        last_digit(draw / 100),
    ]
}

fn last_digit(number: u64) -> u8
    ensures { result ≡ last_digit number }
{
    b'0' + (number % 10) as u8
}
