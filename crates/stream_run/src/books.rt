ghost use Rattle.std.specs.Prelude.{◌≡◌, ◌+◌, IfOk, length};

use crate::texts::PartTexts;
use sink_journal::Noted;
use tuple_trace::NoMemory;

/// What is kept of a stream beside the stream itself.
#[derive(Drop)]
pub struct Books {
    /// The requests that were refused since the end of the last part.
    pub refused: Vec<Noted>,
    /// How many requests were read of their file.
    pub read: u64,
    pub tally: Tally,
}

/// What is counted of a stream.
#[derive(Clone, Copy, PartialEq, Eq)]
pub struct Tally {
    /// How many bytes of the file of the alerts count.
    pub alerts: u64,
    /// How many bytes of the file of the audit count.
    pub audit: u64,
    /// How many rows were run since a savepoint was written.
    pub unsaved: u64,
    /// How many tuples reached the sinks in this call.
    pub shown: u64,
}

impl Tally {
    /// The counts after a part of so many rows, of which so many tuples reached the sinks. A number
    /// too great to be counted is more than memory holds.
    pub fn after(self, texts: &PartTexts, rows: usize, shown: usize) -> Result<Tally, NoMemory>
        ensures alerts { IfOk result (λ tally.
            tally.alerts ≡ self.alerts + length texts.now.alerts) }
        ensures audit { IfOk result (λ tally.
            tally.audit ≡ self.audit + length texts.now.audit) }
        ensures unsaved { IfOk result (λ tally. tally.unsaved ≡ self.unsaved + rows) }
        ensures shown { IfOk result (λ tally. tally.shown ≡ self.shown + shown) }
    {
        Ok(Tally {
            alerts: sum(self.alerts, texts.alerts.len())?,
            audit: sum(self.audit, texts.audit.len())?,
            unsaved: sum(self.unsaved, rows)?,
            shown: sum(self.shown, shown)?,
        })
    }
}

fn sum(before: u64, more: usize) -> Result<u64, NoMemory>
    ensures { IfOk result (λ sum. sum ≡ before + more) }
{
    before.checked_add(more as u64).ok_or(NoMemory)
}
