//! Small jobs, with their requests and payments.

/// The filter's threshold falls before the first row, and after row 99.
pub const AT_BOTH_ENDS: &str = r#"[[request]]
after = 0
change = [{ node = "big", from = 0, kind = "filter", when = [["amount", ">=", 5000]] }]
[[request]]
after = 99
change = [{ node = "big", from = 1, kind = "filter", when = [["amount", ">=", 5000]] }]
"#;

/// A source, two filters and a sink in a row.
pub const TWO_FILTERS: &str = r#"columns = ["amount:cents"]
node = [
  { name = "card", kind = "source" },
  { name = "some", kind = "filter", when = [["amount", ">=", 100]] },
  { name = "big", kind = "filter", when = [["amount", ">=", 10000]] },
  { name = "out", kind = "sink", columns = [] },
]
edge = [
  { from = "card", to = "some" },
  { from = "some", to = "big" },
  { from = "big", to = "out" },
]
"#;

/// One request changes both filters.
pub const BOTH_AT_ONCE: &str = r#"[[request]]
after = 7
change = [
  { node = "some", from = 0, kind = "filter", when = [["amount", ">=", 500]] },
  { node = "big", from = 0, kind = "filter", when = [["amount", ">=", 500]] },
]
"#;

/// One request changes the first filter, and a later one the second.
pub const ONE_AFTER_THE_OTHER: &str = r#"[[request]]
after = 0
change = [{ node = "some", from = 0, kind = "filter", when = [["amount", ">=", 500]] }]
[[request]]
after = 0
change = [{ node = "big", from = 0, kind = "filter", when = [["amount", ">=", 500]] }]
"#;

/// The nodes of a job: a source, a split, a filter that parts the pieces `a` from all others, a map
/// on either way, a filter where the ways meet, and a sink.
pub const TWO_WAYS: &str = r#"columns = ["tags:text"]
node = [
  { name = "card", kind = "source" },
  { name = "s", kind = "split", on = "tags", by = ";", most = 2 },
  { name = "g", kind = "filter", when = [["tags", "=", "a"]] },
  { name = "x", kind = "map", steps = [] },
  { name = "y", kind = "map", steps = [] },
  { name = "m", kind = "filter", when = [] },
  { name = "out", kind = "sink", columns = ["tags"] },
]
"#;

/// The same, but only pieces `b` pass where the ways meet.
pub const TWO_WAYS_FOR_B: &str = r#"columns = ["tags:text"]
node = [
  { name = "card", kind = "source" },
  { name = "s", kind = "split", on = "tags", by = ";", most = 2 },
  { name = "g", kind = "filter", when = [["tags", "=", "a"]] },
  { name = "x", kind = "map", steps = [] },
  { name = "y", kind = "map", steps = [] },
  { name = "m", kind = "filter", when = [["tags", "=", "b"]] },
  { name = "out", kind = "sink", columns = ["tags"] },
]
"#;

pub const WAYS: &str = r#"edge = [
  { from = "card", to = "s" },
  { from = "s", to = "g" },
  { from = "g", to = "x" },
  { from = "g", port = 1, to = "y" },
  { from = "x", to = "m" },
  { from = "y", to = "m" },
  { from = "m", to = "out" },
]
"#;

pub const ONE_ROW: &str = "source,tags\ncard,a;b\n";
