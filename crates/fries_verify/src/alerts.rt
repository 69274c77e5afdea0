// Whether a file holds the alerts of a run, and what is printed of a run that was restored.
ghost use Rattle.std.specs.Prelude.{◌≡◌, ◌<◌, ◌≤◌, ◌↔◌, IfErr, IfNone, IfOk, IfSome, IsTrue};
ghost use Rattle.std.specs.Prelude.{OnOk, Some, length, slice_get};
ghost use Rattle.audit_laws.specs.Verdict.{DifferFirst};
ghost use Rattle.jobs.specs.Nodes.{worker_count};
ghost use Rattle.fries_steps.specs.Running.{alerts_of};
ghost use Rattle.fries_verify.specs.Audits.{HoldsAlerts, HoldsNoAlerts, line_at as line_at_of};
ghost use Rattle.fries_verify.specs.Audits.{verified_lines as verified_lines_of};

use fries_lines::{Fault, FileIs, summary_line};
use fries_steps::{Done, read_file, summary_of};
use payments::Shelf;
use sink_journal::alerts_text;
use std::alloc::Global;
use tuple_trace::{Bytes, NoMemory, Word};

/// Whether a file, if one is named, holds just the alerts of a run.
///
/// # Errors
///
/// The file couldn't be read, is too long, or holds another text; or out of memory.
pub fn check_alerts<S: Shelf>(
    alloc: Global,
    done: &Done,
    name: &Option<Word>,
    shelf: &mut S,
) -> Result<(), Fault>
    requires { length done.now.ran.journals ≡ worker_count done.now.ran.setup.job.nodes }
    ensures alerts { OnOk result (HoldsAlerts (S.state shelf.old).files name.now
        (alerts_of done.now)) }
    ensures kept { OnOk result (S.state shelf.new ≡ S.state shelf.old) }
    ensures files { (S.state shelf.new).files ≡ (S.state shelf.old).files }
    ensures draft { (S.state shelf.new).draft ≡ (S.state shelf.old).draft }
    ensures cause { IfErr result (HoldsNoAlerts (S.state shelf.old).files name.now
        (alerts_of done.now) (S.state shelf.old).faults (S.state shelf.new).faults) }
{
    match name {
        Some(name) => compare_alerts(alloc, done, name, shelf),
        None => Ok(()),
    }
}

fn compare_alerts<S: Shelf>(
    alloc: Global,
    done: &Done,
    name: &Word,
    shelf: &mut S,
) -> Result<(), Fault>
    requires { length done.now.ran.journals ≡ worker_count done.now.ran.setup.job.nodes }
    ensures alerts { OnOk result (HoldsAlerts (S.state shelf.old).files (Some name.now)
        (alerts_of done.now)) }
    ensures kept { OnOk result (S.state shelf.new ≡ S.state shelf.old) }
    ensures files { (S.state shelf.new).files ≡ (S.state shelf.old).files }
    ensures draft { (S.state shelf.new).draft ≡ (S.state shelf.old).draft }
    ensures cause { IfErr result (HoldsNoAlerts (S.state shelf.old).files (Some name.now)
        (alerts_of done.now) (S.state shelf.old).faults (S.state shelf.new).faults) }
{
    let bytes = read_file(alloc, FileIs::Alerts, name, shelf)?;
    let text = alerts_text(alloc, &done.ran.setup.job, &done.ran.journals)?;
    match first_difference(text.as_slice(), bytes.as_slice()) {
        Some(place) => Err(Fault::Alerts(line_at(bytes.as_slice(), place))),
        None => Ok(()),
    }
}

// The place at which two texts differ first; one of them may end there.
fn first_difference(text: &[u8], other: &[u8]) -> Option<usize>
    ensures none { IfNone result (other.now ≡ text.now) }
    ensures some { IfSome result (DifferFirst text.now other.now) }
    ensures within { IfSome result (λ place. place ≤ length other.now) }
{
    for place in 0..text.len() {
        if !is_same_at(text, other, place) {
            return Some(place);
        }
    }
    if other.len() > text.len() {
        Some(text.len())
    } else {
        None
    }
}

fn is_same_at(text: &[u8], other: &[u8], place: usize) -> bool
    requires { place < length text.now }
    ensures { IsTrue result ↔ (slice_get text.now place ≡ slice_get other.now place) }
{
    match other.get(place) {
        Some(byte) => *byte == text[place],
        None => false,
    }
}

// The line, from 1, in which a place of a text stands.
fn line_at(text: &[u8], place: usize) -> u64
    requires { place ≤ length text.now }
    ensures { result ≡ line_at_of text.now place }
{
    1 + text[..place].iter().filter(|byte| **byte == b'\n').count() as u64
}

/// What is printed of a run whose audit was looked at: that it is verified, and the summary.
pub fn verified_lines(alloc: Global, done: &Done) -> Result<Bytes, NoMemory>
    requires { length done.now.ran.journals ≡ worker_count done.now.ran.setup.job.nodes }
    ensures { IfOk result (λ lines. lines ≡ verified_lines_of done.now) }
{
    let summary = summary_line(alloc, summary_of(done)?)?;
    let mut lines = Bytes::from_slice(alloc, b"verified\n")?;
    lines.extend_from_slice(summary.as_bytes())?;
    Ok(lines)
}
