//! Texts of jobs, requests, payments, alerts, audits and savepoints that several crates of tests
//! share, and functions on texts.
//!
//! A text that one crate alone uses stands there.
//!
//! ```
//! let inputs = Inputs { job: CHAIN, requests: "", payments: FOUR_PAYMENTS, ordered: false };
//! assert_eq!(rt; shown(out.written()), "rows 4 alerts 2 requests 0 refused 0\n");
//! ```
#![tactic(auto)]

mod checks;
mod draws;
mod jobs;
mod lines;
mod steady_audit;

pub use checks::shown;
pub use draws::{digit, draw};
pub use jobs::{COUNTER, RING, ROOF, TWO_SOURCES};
pub use lines::{same_lines, times};
pub use steady_audit::is_steady_audit;

/// Payments from two sources: rated by a table, parted by their amount, and counted for each
/// account. It is the job of examples/payments.
pub const PAYMENTS_JOB: &str = r#"columns = ["account:text", "merchant:text", "amount:cents",
           "risk:number:own", "seen:number:own"]

[tables.risks]
casino = 3
fuel = 2

[[node]]
name = "card"
kind = "source"
[[node]]
name = "wire"
kind = "source"
[[node]]
name = "rate"
kind = "enrich"
key = "merchant"
into = "risk"
table = "risks"
other = 1
[[node]]
name = "big"
kind = "filter"
when = [["amount", ">=", 10000]]
[[node]]
name = "hot"
kind = "filter"
when = [["risk", ">=", 2]]
[[node]]
name = "tally"
kind = "count"
workers = 2
key = "account"
add = 1
into = "seen"
[[node]]
name = "review"
kind = "sink"
columns = ["account", "merchant", "amount", "risk"]
[[node]]
name = "often"
kind = "filter"
when = [["seen", ">=", 3]]
[[node]]
name = "watch"
kind = "sink"
columns = ["account", "merchant", "seen"]

[[edge]]
from = "card"
to = "rate"
[[edge]]
from = "wire"
to = "rate"
[[edge]]
from = "rate"
to = "big"
[[edge]]
from = "big"
to = "hot"
[[edge]]
from = "big"
to = "tally"
port = 1
[[edge]]
from = "hot"
to = "review"
[[edge]]
from = "tally"
to = "often"
[[edge]]
from = "often"
to = "watch"
"#;

/// Three requests of the payments job, those of examples/payments behind an empty line. The third
/// was written before the first.
pub const PAYMENTS_REQUESTS: &str = r#"
[[request]]
after = 4
[[request.change]]
node = "big"
from = 0
kind = "filter"
when = [["amount", ">=", 5000]]
[[request.change]]
node = "hot"
from = 0
kind = "filter"
when = [["risk", ">=", 3]]

[[request]]
after = 8
[[request.change]]
node = "often"
from = 0
kind = "filter"
when = [["seen", ">=", 2]]

[[request]]
after = 9
[[request.change]]
node = "big"
from = 0
kind = "filter"
when = [["amount", ">=", 1]]
"#;

/// The first of these requests, before all rows.
pub const AT_THE_FRONT: &str = r#"[[request]]
after = 0
[[request.change]]
node = "big"
from = 0
kind = "filter"
when = [["amount", ">=", 5000]]
[[request.change]]
node = "hot"
from = 0
kind = "filter"
when = [["risk", ">=", 3]]
"#;

/// The payments of examples/payments.
pub const TEN_PAYMENTS: &str = r#"source,account,merchant,amount
card,ann,grocer,20.00
card,bob,casino,250.00
wire,cid,grocer,1200.00
card,dee,fuel,45.50
card,eve,fuel,60.00
card,fay,casino,75.00
card,bob,fuel,130.00
card,gus,grocer,10.00
card,ann,"A, ""B"" Ltd",12.00
card,gus,grocer,5.00
"#;

/// What the ten payments leave with the three requests: the alerts of examples/payments.
pub const PAYMENTS_ALERTS: &str = r#"sink,row,account,merchant,amount,risk,seen
review,2,bob,casino,250.00,3,
review,6,fay,casino,75.00,3,
watch,9,ann,"A, ""B"" Ltd",,,2
watch,10,gus,grocer,,,2
"#;

/// The same without the alerts of `watch`.
pub const REVIEW_ALERTS: &str = "sink,row,account,merchant,amount,risk,seen
review,2,bob,casino,250.00,3,
review,6,fay,casino,75.00,3,
";

/// What is saved of the ten payments after row 8, once two requests were issued.
pub const SAVE_OF_8: &str = "fries,save,8,2
tally,0,dee,1
tally,1,ann,1
tally,1,gus,1
";

/// Payments from 100.00 on pass to one sink. It is the job of examples/chain.
pub const CHAIN: &str = r#"columns = ["account:text", "merchant:text", "amount:cents", "tags:text"]

[[node]]
name = "card"
kind = "source"

[[node]]
name = "big"
kind = "filter"
when = [["amount", ">=", 10000]]

[[node]]
name = "alerts"
kind = "sink"
columns = ["account", "merchant", "amount", "tags"]

[[edge]]
from = "card"
to = "big"

[[edge]]
from = "big"
to = "alerts"
"#;

/// The payments of examples/four_payments.
pub const FOUR_PAYMENTS: &str = "source,account,merchant,amount,tags
card,a,m,99.99,
card,b,m,100.00,
card,c,m,50.00,
card,d,m,120.00,
";

/// What the four payments leave without a request.
pub const TWO_ALERTS: &str = "sink,row,account,merchant,amount,tags
alerts,2,b,m,100.00,
alerts,4,d,m,120.00,
";

/// What they leave where the filter's threshold falls to 50.00 after row 2: the alerts of
/// examples/four_payments.
pub const THREE_ALERTS: &str = "sink,row,account,merchant,amount,tags
alerts,2,b,m,100.00,
alerts,3,c,m,50.00,
alerts,4,d,m,120.00,
";

/// The audit of the four payments without a request. One lane leads to each worker, so no schedule
/// changes it.
pub const AUDIT_OF_FOUR: &str = "entry,node,worker,lane,number,extra
fed,,,,1,
fed,,,,2,
fed,,,,3,
fed,,,,4,
stopped,,,,,
met,big,0,0,1,
met,big,0,0,2,
met,big,0,0,3,
met,big,0,0,4,
ended,big,0,0,,
met,alerts,0,1,2,
met,alerts,0,1,4,
ended,alerts,0,1,,
";

/// The same nodes with one column. Amounts from 100.00 on pass.
pub const AMOUNT_CHAIN: &str = r#"columns = ["amount:cents"]
node = [
  { name = "card", kind = "source" },
  { name = "big", kind = "filter", when = [["amount", ">=", 10000]] },
  { name = "alerts", kind = "sink", columns = ["amount"] },
]
edge = [
  { from = "card", to = "big" },
  { from = "big", to = "alerts" },
]
"#;

/// The amounts of the four payments.
pub const FOUR_AMOUNTS: &str = "source,amount
card,99.99
card,100.00
card,50.00
card,120.00
";

/// Twelve payments of 75.00.
pub const TWELVE_OF_75: &str = "source,amount
card,75
card,75
card,75
card,75
card,75
card,75
card,75
card,75
card,75
card,75
card,75
card,75
";

/// The filter's threshold falls to 50.00 after row 2.
pub const AFTER_2: &str = r#"[[request]]
after = 2
change = [{ node = "big", from = 0, kind = "filter", when = [["amount", ">=", 5000]] }]
"#;

/// The same request behind an empty line.
pub const SPACED_AFTER_2: &str = r#"
[[request]]
after = 2
change = [{ node = "big", from = 0, kind = "filter", when = [["amount", ">=", 5000]] }]
"#;

/// The filter's threshold falls twice to 50.00 after row 3.
pub const TWICE_AFTER_3: &str = r#"[[request]]
after = 3
change = [{ node = "big", from = 0, kind = "filter", when = [["amount", ">=", 5000]] }]
[[request]]
after = 3
change = [{ node = "big", from = 1, kind = "filter", when = [["amount", ">=", 5000]] }]
"#;

/// The audit of a run of no payment.
pub const AUDIT_OF_NONE: &str = "entry,node,worker,lane,number,extra
stopped,,,,,
ended,big,0,0,,
ended,alerts,0,1,,
";

/// The same without the end of the filter.
pub const AUDIT_CUT: &str = "entry,node,worker,lane,number,extra
stopped,,,,,
ended,alerts,0,1,,
";
