/// The feed, and the workers with one lane in that no request covers. Rows 4 and 1, 8, 9 and 10
/// come to the two workers of `tally` by the account.
const STEADY: &str = "fed,,,,1,
fed,,,,2,
fed,,,,3,
fed,,,,4,
issued,,,,1,
fed,,,,5,
fed,,,,6,
fed,,,,7,
fed,,,,8,
issued,,,,2,
fed,,,,9,
fed,,,,10,
stopped,,,,,
met,tally,0,4,4,
ended,tally,0,4,,
state,tally,0,,1,dee
met,tally,1,5,1,
met,tally,1,5,8,
met,tally,1,5,9,
met,tally,1,5,10,
ended,tally,1,5,,
state,tally,1,,2,ann
state,tally,1,,2,gus
met,review,0,6,2,
met,review,0,6,6,
ended,review,0,6,,
met,watch,0,9,9,
met,watch,0,9,10,
ended,watch,0,9,,
";

/// Whether an audit of the ten payments and their three requests begins with these lines, and has
/// what no schedule changes of the lines that follow.
pub fn is_steady_audit(audit: &str, head: &str) -> bool {
    match audit.strip_prefix(head) {
        Some(rest) => is_steady(rest),
        None => false,
    }
}

fn is_steady(records: &str) -> bool {
    let mut wanted = STEADY.lines();
    let mut well = true;
    for record in records.lines() {
        if !is_scheduled(record) {
            well &= wanted.next() == Some(record);
        }
    }
    well && wanted.next().is_none()
}

// Whether a record is of a node whose records depend on the schedule.
fn is_scheduled(record: &str) -> bool {
    let node = record.split(',').nth(1).unwrap_or("");
    node == "rate" || node == "big" || node == "hot" || node == "often"
}
