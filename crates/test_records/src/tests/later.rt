//! What the checker says of audits of the last two payments, after a savepoint.
use crate::tests::audits::PAYMENTS;
use crate::tests::case::{Said, check_run, fault_in, fault_of, said_from};
use audit_fault::AuditFault;
use savepoint_file::read_save;
use std::alloc::Global;
use test_texts::SAVE_OF_8;

/// The audit of rows 9 and 10, as that of all ten has their steps. Both requests turned before.
const AUDIT: &str = "\
entry,node,worker,lane,number,extra
refused,,,,3,Q4
fed,,,,9,
fed,,,,10,
stopped,,,,,
met,rate,0,0,9,
met,rate,0,0,10,
ended,rate,0,0,,
ended,rate,0,1,,
met,big,0,2,9,
met,big,0,2,10,
ended,big,0,2,,
ended,hot,0,3,,
ended,tally,0,4,,
state,tally,0,,1,dee
met,tally,1,5,9,
met,tally,1,5,10,
ended,tally,1,5,,
state,tally,1,,2,ann
state,tally,1,,2,gus
ended,review,0,6,,
met,often,0,8,9,
met,often,0,8,10,
ended,often,0,7,,
ended,often,0,8,,
met,watch,0,9,9,
met,watch,0,9,10,
ended,watch,0,9,,
";

/// The same, if the second request wasn't turned before: it is issued at the front.
const AUDIT_OF_A_LATE_REQUEST: &str = "\
entry,node,worker,lane,number,extra
refused,,,,3,Q4
issued,,,,2,
fed,,,,9,
fed,,,,10,
stopped,,,,,
met,rate,0,0,9,
met,rate,0,0,10,
ended,rate,0,0,,
ended,rate,0,1,,
met,big,0,2,9,
met,big,0,2,10,
ended,big,0,2,,
ended,hot,0,3,,
ended,tally,0,4,,
state,tally,0,,1,dee
met,tally,1,5,9,
met,tally,1,5,10,
ended,tally,1,5,,
state,tally,1,,2,ann
state,tally,1,,2,gus
ended,review,0,6,,
turned,often,0,,2,
met,often,0,8,9,
met,often,0,8,10,
ended,often,0,7,,
ended,often,0,8,,
met,watch,0,9,9,
met,watch,0,9,10,
ended,watch,0,9,,
";

/// What the checker says of a text after the savepoint, if so many requests were turned.
fn said_after(alloc: Global, save: &str, turned: u64, text: &str) -> Said {
    let Some(case) = PAYMENTS.read(alloc) else {
        return Said::Nothing;
    };
    let Ok(mut start) = read_save(alloc, &case.setup, 10, save.as_bytes()) else {
        return Said::Nothing;
    };
    if start.states.len() != case.setup.workers() as usize {
        return Said::Nothing;
    }
    start.turned = turned;
    said_from(alloc, case, &start, text.as_bytes())
}

fn fault_after(alloc: Global, save: &str, turned: u64, text: &str) -> Option<AuditFault> {
    fault_in(said_after(alloc, save, turned, text))
}

#[test]
fn the_last_two_payments_are_verified(rt: HostRuntime) {
    check_run(&rt, said_after(rt.alloc(), SAVE_OF_8, 2, AUDIT), AUDIT);
}

#[test]
fn a_request_for_an_earlier_row_is_issued_first(rt: HostRuntime) {
    let (alloc, late) = (rt.alloc(), AUDIT_OF_A_LATE_REQUEST);
    check_run(&rt, said_after(alloc, SAVE_OF_8, 1, late), late);
    assert_eq!(rt;
        fault_after(alloc, SAVE_OF_8, 1, AUDIT),
        Some(AuditFault::Feed(2))
    );
    assert_eq!(rt;
        fault_after(alloc, SAVE_OF_8, 2, late),
        Some(AuditFault::Feed(2))
    );
}

/// What is saved if nothing was counted.
const NO_COUNTS: &str = "fries,save,8,2\n";

#[test]
fn counts_before_are_part_of_an_audit(rt: HostRuntime) {
    let alloc = rt.alloc();
    assert_eq!(rt;
        fault_after(alloc, NO_COUNTS, 2, AUDIT),
        Some(AuditFault::Lane(9))
    );
}

#[test]
fn a_later_part_is_no_whole_run(rt: HostRuntime) {
    let alloc = rt.alloc();
    assert_eq!(rt; fault_of(alloc, PAYMENTS, AUDIT), Some(AuditFault::Feed(2)));
}
