ghost use Rattle.std.specs.Prelude.{◌≡◌, ◌++◌, ◌+◌, ◌<◌, [], All, IfOk, OnErr, OnOk, None};
ghost use Rattle.std.specs.Prelude.{false, length, true};
ghost use Rattle.csv.specs.Reading.{default_config, records as records_of, strip_bom};
ghost use Rattle.jobs.specs.Job.{job_view};
ghost use Rattle.jobs.specs.Limits.{HasShortTexts};
ghost use Rattle.jobs.specs.Nodes.{AreFromSources};
ghost use Rattle.tuple_trace.specs.FeedRows.{AreRowsAfter};
ghost use Rattle.tuple_trace.specs.declared.row.Row.{Row as RowIs};
ghost use Rattle.stream_rows.specs.Rows.{sound_rows as rows_of_records};
ghost use Rattle.stream_rows.specs.declared.limits.TheConstants.{MAX_ROWS};

use crate::SoundRows;
use crate::behind::behind_line_feed;
use crate::limits::MAX_ROWS;
use crate::sound::sound_rows;
use csv::ByteRecord;
use jobs::Job;
use payments::{PFault, TextRecords, is_header};
use std::alloc::Global;
use tuple_trace::{Items, NoMemory};

/// Reads the rows of a stream piece by piece.
///
/// The stream is a payments file that never has to end: CSV with a header. Each piece but the last
/// has to be cut between records. A byte order mark at the start of the first is left out. Rows are
/// numbered on over all pieces.
#[derive(Drop)]
pub struct RowReader {
    /// Whether a byte was read.
    begun: bool,
    /// Whether the header was read.
    has_header: bool,
    /// How many rows were skipped or read.
    fed: u64,
    ghost few: { fed < MAX_ROWS },
}

impl RowReader {
    ghost use Rattle.std.specs.Prelude.{ℕ, List};
    ghost use Rattle.input_pieces.specs.Cut.{IsCut};
    ghost use Rattle.jobs.specs.JobView.{JobView};
    ghost use Rattle.stream_rows.specs.Reader.{HasRead, IsReadTo, end_fault, fed_of, text_of};
    ghost use Rattle.stream_rows.specs.Rows.{and_then, stream_rows};

    /// Nothing is read yet. The first row gets the number 1.
    pub fn new() -> Self
        ensures read { (job : JobView) → IsReadTo job 0 result [] }
        ensures fed { fed_of result ≡ 0 }
    {
        RowReader::after(0)
    }

    /// Nothing is read yet. The first row gets the number `skipped` + 1.
    pub fn after(skipped: u64) -> Self
        requires { skipped < MAX_ROWS }
        ensures read { (job : JobView) → IsReadTo job skipped result [] }
        ensures fed { fed_of result ≡ skipped }
    {
        RowReader {
            begun: false,
            has_header: false,
            fed: skipped,
        }
    }

    /// How many rows were skipped or read.
    pub fn fed(&self) -> u64
        ensures value { result ≡ fed_of self.now }
        ensures few { result < MAX_ROWS }
    {
        self.fed
    }

    /// What is wrong with the stream if it ends here: it has no header.
    pub fn at_end(&self) -> Option<PFault>
        ensures { result ≡ end_fault self.now }
    {
        if self.has_header {
            None
        } else {
            Some(PFault::NoHeader)
        }
    }

    /// Reads the next piece, and returns its rows up to its first fault.
    ///
    /// After a fault the stream is over, and no other piece is to be read.
    ///
    /// # Errors
    ///
    /// Only out of memory. Nothing is read then. It also comes instead of row 2^63 - 1.
    pub fn read(&mut self, alloc: Global, job: &Job, piece: &[u8]) -> Result<SoundRows, NoMemory>
        ensures rows { IfOk result (λ sound. (skipped : ℕ) (before : List ℕ)
            → IsReadTo (job_view job.now) skipped self.old before → IsCut default_config before
            → stream_rows (job_view job.now) skipped (before ++ piece.now)
            ≡ and_then (stream_rows (job_view job.now) skipped before).rows sound) }
        ensures read { IfOk result (λ sound. (skipped : ℕ) (before : List ℕ)
            → IsReadTo (job_view job.now) skipped self.old before → IsCut default_config before
            → sound.fault ≡ None
            → IsReadTo (job_view job.now) skipped self.new (before ++ piece.now)) }
        ensures fed { IfOk result (λ sound. fed_of self.new
            ≡ fed_of self.old + length sound.rows) }
        ensures few { IfOk result (λ sound. fed_of self.old + length sound.rows < MAX_ROWS) }
        ensures numbered { IfOk result (λ sound. AreRowsAfter (fed_of self.old) sound.rows) }
        ensures sources { IfOk result (λ sound.
            AreFromSources (job_view job.now) sound.rows) }
        ensures texts { IfOk result (λ sound.
            All (λ (row : RowIs). HasShortTexts row.tuple) sound.rows) }
        ensures as_before { OnErr result (self.new ≡ self.old) }
    {
        let sound = self.read_piece(alloc, job, piece)?;
        self.begun = self.begun || !piece.is_empty();
        Ok(sound)
    }

    // Reads the records of a piece. A piece but the first is read behind a line feed, so that a
    // mark at its start isn't left out.
    fn read_piece(&mut self, alloc: Global, job: &Job, piece: &[u8]) -> Result<SoundRows, NoMemory>
        ensures read { IfOk result (λ sound. HasRead (job_view job.now) self.old self.new
            (records_of default_config (text_of self.old.begun piece.now)) sound) }
        ensures as_before { OnErr result (self.new ≡ self.old) }
    {
        if !self.begun {
            return self.read_text(alloc, job, piece);
        }
        let text = behind_line_feed(alloc, piece)?;
        self.read_text(alloc, job, text.as_slice())
    }

    // Reads the records of a text without the mark at its start.
    fn read_text(&mut self, alloc: Global, job: &Job, text: &[u8]) -> Result<SoundRows, NoMemory>
        ensures read { IfOk result (λ sound. HasRead (job_view job.now) self.old self.new
            (records_of default_config (strip_bom text.now)) sound) }
        ensures as_before { OnErr result (self.new ≡ self.old) }
    {
        let mut records = TextRecords::of(alloc, text);
        let mut cells = ByteRecord::new(alloc);
        self.read_records(alloc, job, &mut records, &mut cells)
    }

    // Reads the records that are left. `cells` holds each record in turn.
    fn read_records(
        &mut self,
        alloc: Global,
        job: &Job,
        records: &mut TextRecords<'_>,
        cells: &mut ByteRecord,
    ) -> Result<SoundRows, NoMemory>
        ensures read { IfOk result (λ sound.
            HasRead (job_view job.now) self.old self.new records.old sound) }
        ensures as_before { OnErr result (self.new ≡ self.old) }
    {
        if self.has_header {
            return self.read_rows(alloc, job, records, cells);
        }
        if !records.next(cells)? {
            return Ok(SoundRows {
                rows: Items::new(alloc),
                fault: None,
            });
        }
        if !is_header(job.columns.as_slice(), cells) {
            return Ok(SoundRows {
                rows: Items::new(alloc),
                fault: Some(PFault::Header),
            });
        }
        self.read_rows(alloc, job, records, cells)
    }

    // Reads the rows of the records that are left.
    fn read_rows(
        &mut self,
        alloc: Global,
        job: &Job,
        records: &mut TextRecords<'_>,
        cells: &mut ByteRecord,
    ) -> Result<SoundRows, NoMemory>
        ensures rows { IfOk result (λ sound. sound
            ≡ rows_of_records (job_view job.now) (self.old.fed + 1) records.old) }
        ensures fed { IfOk result (λ sound. self.new.fed ≡ self.old.fed + length sound.rows) }
        ensures header { OnOk result (self.new.has_header ≡ true) }
        ensures begun { OnOk result (self.new.begun ≡ self.old.begun) }
        ensures as_before { OnErr result (self.new ≡ self.old) }
    {
        let sound = sound_rows(alloc, job, self.fed, records, cells)?;
        self.has_header = true;
        self.fed += sound.rows.len() as u64;
        Ok(sound)
    }
}
