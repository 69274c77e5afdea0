// The sixth pass: whether the counts of each worker are those of its replay.
ghost use Rattle.std.specs.Prelude.{◌≡◌, ◌<◌, ◌↔◌, IfErr, IsTrue, OnOk, Some, length, map};
ghost use Rattle.std.specs.Prelude.{slice_get};
ghost use Rattle.std.specs.FinMap.{entries};
ghost use Rattle.audit_restore.specs.Restored.{IsFirstOther};

use audit_check::Counted;
use audit_fault::AuditFault;
use keyed_state::Keyed;
use tuple_trace::Items;

/// Whether the counts that an audit tells of each worker are these.
///
/// # Errors
///
/// The least worker whose counts differ.
pub(crate) fn check_counts(
    workers: u32,
    told: &[Items<Counted>],
    states: &[Keyed],
) -> Result<(), AuditFault>
    requires told { length told.now ≡ workers }
    requires states { length states.now ≡ workers }
    ensures ok { OnOk result (told.now ≡ map entries states.now) }
    ensures fault { IfErr result (IsFirstOther told.now states.now) }
{
    for worker in 0..workers {
        let place = worker as usize;
        if !are_counts(told[place].as_slice(), &states[place]) {
            return Err(AuditFault::State(worker));
        }
    }
    Ok(())
}

fn are_counts(told: &[Counted], state: &Keyed) -> bool
    ensures { IsTrue result ↔ (told.now ≡ entries state.now) }
{
    let mut place = 0;
    for (key, count) in state.iter() {
        if !is_count(told, place, key, *count) {
            return false;
        }
        place += 1;
    }
    place == told.len()
}

// Whether this count stands at the place.
fn is_count(told: &[Counted], place: usize, key: &[u8], count: i64) -> bool
    ensures { IsTrue result ↔ (slice_get told.now place ≡ Some (key.now, count)) }
{
    if place >= told.len() {
        return false;
    }
    is_same(&told[place], key, count)
}

fn is_same(found: &Counted, key: &[u8], count: i64) -> bool
    ensures { IsTrue result ↔ (found.now ≡ (key.now, count)) }
{
    if found.count != count {
        return false;
    }
    found.key.as_slice() == key
}
