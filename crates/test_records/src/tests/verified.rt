//! What the checker says of audits, and of audits with a damage.
use crate::tests::audits::{FOUR_PAYMENTS, NO_PAYMENTS, PAYMENTS};
use crate::tests::case::{audit_of, check_run, fault_of, said_of};
use audit_fault::AuditFault;
use std::alloc::Global;
use std::process::Abort;
use test_runs::Inputs;
use test_texts::{AUDIT_CUT, AUDIT_OF_NONE};

// Asserts that the checker answers the run of this audit.
fn check_verified(rt: &(impl AllocGlobal + Abort), case: Inputs<'_>, audit: &str) {
    check_run(rt, said_of(rt.alloc(), case, audit.as_bytes()), audit);
}

#[test]
fn verify_empty(rt: HostRuntime) {
    let alloc = rt.alloc();
    check_verified(&rt, NO_PAYMENTS, AUDIT_OF_NONE);
    assert_eq!(rt;
        fault_of(alloc, NO_PAYMENTS, AUDIT_CUT),
        Some(AuditFault::Law(0))
    );
}

const AUDIT_OF_FOUR: &str = "entry,node,worker,lane,number,extra
fed,,,,1,
fed,,,,2,
fed,,,,3,
fed,,,,4,
stopped,,,,,
met,big,0,0,1,
met,big,0,0,2,
met,big,0,0,3,
met,big,0,0,4,
ended,big,0,0,,
met,alerts,0,1,2,
met,alerts,0,1,3,
ended,alerts,0,1,,
";

// The fault of the audit of four payments with the second of these texts in the place of the first.
fn found(alloc: Global, old: &str, new: &str) -> Option<AuditFault> {
    fault_with(alloc, FOUR_PAYMENTS, AUDIT_OF_FOUR, (old, new))
}

fn fault_with(
    alloc: Global,
    case: Inputs<'_>,
    audit: &str,
    (old, new): (&str, &str),
) -> Option<AuditFault> {
    let (before, after) = audit.split_once(old)?;
    let text = format!(in alloc; "{before}{new}{after}").ok()?;
    fault_of(alloc, case, text.as_str())
}

#[test]
fn verify_damaged(rt: HostRuntime) {
    let alloc = rt.alloc();
    check_verified(&rt, FOUR_PAYMENTS, AUDIT_OF_FOUR);
    assert_eq!(rt;
        found(alloc, "met,alerts,0,1,2,\n", ""),
        Some(AuditFault::Lane(1))
    );
    assert_eq!(rt;
        found(alloc, "fed,,,,2,\n", "fed,,,,3,\n"),
        Some(AuditFault::Feed(2))
    );
    assert_eq!(rt; found(alloc, "entry,", "x,"), Some(AuditFault::Shape(0)));
    let (two, three) = (
        "met,big,0,0,2,\nmet,big,0,0,3,\n",
        "met,big,0,0,3,\nmet,big,0,0,2,\n",
    );
    assert_eq!(rt; found(alloc, two, three), Some(AuditFault::Lane(0)));
}

// The fault of the audit of the payments with another count of ann.
fn fault_of_count(alloc: Global) -> Option<AuditFault> {
    let text = audit_of(alloc, PAYMENTS)?;
    let audit = str::from_utf8(text.as_slice()).ok()?;
    let counts = ("state,tally,1,,2,ann\n", "state,tally,1,,3,ann\n");
    fault_with(alloc, PAYMENTS, audit, counts)
}

// Asserts that the checker answers the run of what the plain executor leaves.
fn check_plain(rt: &(impl AllocGlobal + Abort), case: Inputs<'_>) {
    let text = audit_of(rt.alloc(), case).expect(rt, "an audit");
    check_verified(
        rt,
        case,
        str::from_utf8(text.as_slice()).expect(rt, "UTF-8"),
    );
}

#[test]
fn verify_payments(rt: HostRuntime) {
    check_plain(&rt, PAYMENTS);
    assert_eq!(rt; fault_of_count(rt.alloc()), Some(AuditFault::State(4)));
}
