// The files of a stream.
ghost use Rattle.std.specs.Prelude.{◌≡◌, IfErr, None, OnErr, OnOk};
ghost use Rattle.payments.specs.Files.{with_bytes};
ghost use Rattle.payments.specs.Growing.{with_text};
ghost use Rattle.stream_run.specs.Files.{GrowInTurn};
ghost use Rattle.stream_run.specs.Unwritten.{IsUnwritten, write_fault};

use crate::names::StreamNames;
use crate::texts::PartTexts;
use fries_lines::{Fault, FileIs};
use payments::{GrowingShelf, ShelfFault, extend_all, store};

/// Appends the texts of a part to both files: first its alerts, and then its audit.
///
/// After an error the first file has gained a prefix of its text, or all of it, and then the second
/// a prefix of its own.
pub fn append_part<S: GrowingShelf>(
    names: &StreamNames<'_>,
    texts: &PartTexts,
    shelf: &mut S,
) -> Result<(), Fault>
    requires closed { (S.state shelf.old).draft ≡ None }
    ensures whole { OnOk result ((S.state shelf.new).files ≡
        with_text (with_text (S.state shelf.old).files names.now.alerts texts.now.alerts)
        names.now.audit texts.now.audit) }
    ensures stopped { OnErr result (GrowInTurn (S.state shelf.old).files
        (S.state shelf.new).files names.now.alerts texts.now.alerts names.now.audit
        texts.now.audit) }
    ensures closed { (S.state shelf.new).draft ≡ None }
    ensures faults { OnOk result ((S.state shelf.new).faults ≡ (S.state shelf.old).faults) }
    ensures cause { IfErr result (λ why.
        IsUnwritten names.now (S.state shelf.old).faults (S.state shelf.new).faults why) }
{
    let alerts = extend_all(shelf, names.alerts, texts.alerts.as_slice());
    alerts.map_err(|why| fault_of(FileIs::Alerts, why))?;
    let audit = extend_all(shelf, names.audit, texts.audit.as_slice());
    audit.map_err(|why| fault_of(FileIs::Audit, why))
}

/// Makes the savepoint's file hold this text. After an error it is as before.
pub fn store_save<S: GrowingShelf>(
    names: &StreamNames<'_>,
    text: &[u8],
    shelf: &mut S,
) -> Result<(), Fault>
    ensures whole { OnOk result ((S.state shelf.new).files ≡
        with_bytes (S.state shelf.old).files names.now.save text.now) }
    ensures as_before { OnErr result ((S.state shelf.new).files ≡ (S.state shelf.old).files) }
    ensures closed { (S.state shelf.new).draft ≡ None }
    ensures faults { OnOk result ((S.state shelf.new).faults ≡ (S.state shelf.old).faults) }
    ensures cause { IfErr result (λ why.
        IsUnwritten names.now (S.state shelf.old).faults (S.state shelf.new).faults why) }
{
    store(shelf, names.save, text).map_err(|why| fault_of(FileIs::Save, why))
}

/// The fault of a file that wasn't written. A write never finds a file too long.
pub fn fault_of(file: FileIs, why: ShelfFault) -> Fault
    ensures { result ≡ write_fault file why }
{
    match why {
        ShelfFault::Failed => Fault::Write(file),
        ShelfFault::Long | ShelfFault::NoMemory => Fault::NoMemory,
    }
}
