//! The payments job of examples/payments, its payments and its first requests.
use test_runs::Inputs;
use test_texts::{PAYMENTS_JOB, TEN_PAYMENTS};

/// The job and its payments in ordered mode, with these requests.
pub fn inputs(requests: &str) -> Inputs<'_> {
    Inputs {
        job: PAYMENTS_JOB,
        requests,
        payments: TEN_PAYMENTS,
        ordered: true,
    }
}

/// After row 4 the first request lowers the threshold of `big` and raises that of `hot`.
pub const AFTER_4: &str = r#"[[request]]
after = 4
[[request.change]]
node = "big"
from = 0
kind = "filter"
when = [["amount", ">=", 5000]]
[[request.change]]
node = "hot"
from = 0
kind = "filter"
when = [["risk", ">=", 3]]
"#;

/// The second request lowers the threshold of `often` after row 8.
pub const AFTER_4_AND_8: &str = r#"[[request]]
after = 4
[[request.change]]
node = "big"
from = 0
kind = "filter"
when = [["amount", ">=", 5000]]
[[request.change]]
node = "hot"
from = 0
kind = "filter"
when = [["risk", ">=", 3]]
[[request]]
after = 8
[[request.change]]
node = "often"
from = 0
kind = "filter"
when = [["seen", ">=", 2]]
"#;

/// The header and the first eight payments.
pub const FIRST_8: &str = r#"source,account,merchant,amount
card,ann,grocer,20.00
card,bob,casino,250.00
wire,cid,grocer,1200.00
card,dee,fuel,45.50
card,eve,fuel,60.00
card,fay,casino,75.00
card,bob,fuel,130.00
card,gus,grocer,10.00
"#;
