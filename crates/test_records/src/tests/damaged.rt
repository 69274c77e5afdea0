//! Audits of which one record is damaged.
use crate::tests::audits::{FOUR_PAYMENTS, PAYMENTS};
use crate::tests::case::{Said, audit_of, said_of};
use std::alloc::{AllocError, Global};
use test_runs::Inputs;

/// What is done to one record.
#[derive(Clone, Copy)]
enum Damage {
    Dropped,
    Doubled,
    /// It is exchanged with the next record.
    Exchanged,
    /// A digit is added to the field at this place.
    Changed(usize),
}

const DAMAGES: [Damage; 9] = [
    Damage::Dropped,
    Damage::Doubled,
    Damage::Exchanged,
    Damage::Changed(0),
    Damage::Changed(1),
    Damage::Changed(2),
    Damage::Changed(3),
    Damage::Changed(4),
    Damage::Changed(5),
];

/// The text of these records, of which one is damaged.
fn damaged(
    alloc: Global,
    records: &[&str],
    at: usize,
    damage: Damage,
) -> Result<String, AllocError> {
    let mut text = String::new(alloc);
    push_damaged(&mut text, records, at, damage)?;
    Ok(text)
}

fn push_damaged(
    text: &mut String,
    records: &[&str],
    at: usize,
    damage: Damage,
) -> Result<(), AllocError> {
    let mut held = None;
    for (place, record) in records.iter().enumerate() {
        if place != at {
            push_record(text, record)?;
            if let Some(earlier) = held {
                push_record(text, earlier)?;
            }
            held = None;
        } else {
            match damage {
                Damage::Dropped => {}
                Damage::Doubled => {
                    push_record(text, record)?;
                    push_record(text, record)?;
                }
                Damage::Exchanged => held = Some(*record),
                Damage::Changed(field) => push_changed(text, record, field)?,
            }
        }
    }
    match held {
        Some(earlier) => push_record(text, earlier),
        None => Ok(()),
    }
}

fn push_record(text: &mut String, record: &str) -> Result<(), AllocError> {
    text.push_str(record)?;
    text.push('\n')
}

fn push_changed(text: &mut String, record: &str, field: usize) -> Result<(), AllocError> {
    for (place, cell) in record.split(',').enumerate() {
        if place > 0 {
            text.push(',')?;
        }
        text.push_str(cell)?;
        if place == field {
            text.push('1')?;
        }
    }
    text.push('\n')
}

/// How many damaged texts were refused, are the audits of other runs, and neither.
#[derive(Clone, Copy, Debug, PartialEq, Eq)]
struct Found {
    refused: u32,
    other: u32,
    wrong: u32,
}

fn lines_of(alloc: Global, text: &str) -> Result<Vec<&str>, AllocError> {
    text.lines().collect(alloc)
}

fn count_all(alloc: Global, case: Inputs<'_>) -> Option<Found> {
    let audit = audit_of(alloc, case)?;
    count_in(alloc, case, str::from_utf8(audit.as_slice()).ok()?)
}

fn count_in(alloc: Global, case: Inputs<'_>, text: &str) -> Option<Found> {
    let records = lines_of(alloc, text).ok()?;
    let mut found = Found {
        refused: 0,
        other: 0,
        wrong: 0,
    };
    for at in 0..records.len() {
        note_each(alloc, case, text, &records, at, &mut found)?;
    }
    Some(found)
}

// Notes each damage of one record.
fn note_each(
    alloc: Global,
    case: Inputs<'_>,
    text: &str,
    records: &[&str],
    at: usize,
    found: &mut Found,
) -> Option<()> {
    for damage in DAMAGES {
        let changed = damaged(alloc, records, at, damage).ok()?;
        if changed.as_str() != text {
            note(alloc, case, changed.as_bytes(), found);
        }
    }
    Some(())
}

fn note(alloc: Global, case: Inputs<'_>, text: &[u8], found: &mut Found) {
    match said_of(alloc, case, text) {
        Said::Fault(_) => found.refused = found.refused.wrapping_add(1),
        Said::Run(again) if again.as_slice() == text => {
            found.other = found.other.wrapping_add(1);
        }
        Said::Run(_) | Said::Nothing => found.wrong = found.wrong.wrapping_add(1),
    }
}

#[test]
fn damages_of_four_payments(rt: HostRuntime) {
    let found = count_all(rt.alloc(), FOUR_PAYMENTS);
    assert!(rt;
        matches!(
            found,
            Some(Found {
                refused: 100..=200,
                other: 0,
                wrong: 0
            })
        ),
        "{found:?}"
    );
}

#[test]
fn damages_of_the_payments_job(rt: HostRuntime) {
    let found = count_all(rt.alloc(), PAYMENTS);
    assert!(rt;
        matches!(
            found,
            Some(Found {
                refused: 1..,
                other: 1..,
                wrong: 0
            })
        ),
        "{found:?}"
    );
}
