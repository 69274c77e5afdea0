//! Requests of the tests of `run`, and jobs with one map.

/// Lets payments from 50.00 on pass, before the first row.
pub const AT_FIRST: &str = r#"
[[request]]
after = 0
change = [{ node = "big", from = 0, kind = "filter", when = [["amount", ">=", 5000]] }]
"#;

/// The same after the last row.
pub const AFTER_4: &str = r#"
[[request]]
after = 4
change = [{ node = "big", from = 0, kind = "filter", when = [["amount", ">=", 5000]] }]
"#;

/// Two requests from the same function.
pub const AFTER_2_AND_3: &str = r#"
[[request]]
after = 2
change = [{ node = "big", from = 0, kind = "filter", when = [["amount", ">=", 5000]] }]
[[request]]
after = 3
change = [{ node = "big", from = 0, kind = "filter", when = [["amount", ">=", 5000]] }]
"#;

/// A map between a source and a sink, which multiplies by a million.
pub const TIMES_A_MILLION: &str = r#"
columns = ["amount:cents"]
node = [
  { name = "card", kind = "source" },
  { name = "change", kind = "map", steps = [["amount", "mul", "amount", 1000000]] },
  { name = "out", kind = "sink", columns = ["amount"] },
]
edge = [{ from = "card", to = "change" }, { from = "change", to = "out" }]
"#;

/// The same map without steps.
pub const UNCHANGED: &str = r#"
columns = ["amount:cents"]
node = [
  { name = "card", kind = "source" },
  { name = "change", kind = "map", steps = [] },
  { name = "out", kind = "sink", columns = ["amount"] },
]
edge = [{ from = "card", to = "change" }, { from = "change", to = "out" }]
"#;
