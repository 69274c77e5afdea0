//! A job, requests and payments.

/// Lets payments from 100.00 on pass.
pub const CHAIN: &str = r#"columns = ["account:text", "amount:cents"]
[[node]]
name = "card"
kind = "source"
[[node]]
name = "big"
kind = "filter"
when = [["amount", ">=", 10000]]
[[node]]
name = "alerts"
kind = "sink"
columns = ["account", "amount"]
[[edge]]
from = "card"
to = "big"
[[edge]]
from = "big"
to = "alerts"
"#;

/// Lets payments from 50.00 on pass after row 3.
pub const AFTER_3: &str = r#"
[[request]]
after = 3
change = [{ node = "big", from = 0, kind = "filter", when = [["amount", ">=", 5000]] }]
"#;

/// The same after a row that never comes.
pub const AFTER_9: &str = r#"
[[request]]
after = 9
change = [{ node = "big", from = 0, kind = "filter", when = [["amount", ">=", 5000]] }]
"#;

/// Four payments. The account of the third has a quote, a comma and a line break.
pub const PAYMENTS: &str = "source,account,amount\ncard,a,100.00\ncard,b,99.99\n\
    card,\"c\"\",\n\",120.00\ncard,d,50.00\n";

/// The first two of the four payments.
pub const TWO: &str = "source,account,amount\ncard,a,100.00\ncard,b,99.99\n";

/// The alerts of the four payments without requests.
pub const ALERTS: &str =
    "sink,row,account,amount\nalerts,1,a,100.00\nalerts,3,\"c\"\",\n\",120.00\n";

/// The alerts of the four payments, the last of which comes after the threshold fell.
pub const LATE_ALERTS: &str = "sink,row,account,amount\nalerts,1,a,100.00\n\
    alerts,3,\"c\"\",\n\",120.00\nalerts,4,d,50.00\n";
