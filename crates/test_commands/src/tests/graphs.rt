//! Jobs of the tests of `plan`.

/// Three maps in a row.
pub const THREE_MAPS: &str = r#"
columns = ["amount:cents"]
node = [
  { name = "card", kind = "source" },
  { name = "a", kind = "map", steps = [] },
  { name = "b", kind = "map", steps = [] },
  { name = "c", kind = "map", steps = [] },
  { name = "out", kind = "sink", columns = ["amount"] },
]
edge = [
  { from = "card", to = "a" },
  { from = "a", to = "b" },
  { from = "b", to = "c" },
  { from = "c", to = "out" },
]
"#;

/// A split, a filter behind it whose two ways lead over a map each, and a map where they meet
/// again.
pub const SPLIT_ABOVE: &str = r#"
columns = ["tags:text"]
node = [
  { name = "card", kind = "source" },
  { name = "s", kind = "split", on = "tags", by = ";", most = 2 },
  { name = "g", kind = "filter", when = [["tags", "=", "a"]] },
  { name = "x", kind = "map", steps = [] },
  { name = "y", kind = "map", steps = [] },
  { name = "m", kind = "filter", when = [] },
  { name = "out", kind = "sink", columns = ["tags"] },
]
edge = [
  { from = "card", to = "s" },
  { from = "s", to = "g" },
  { from = "g", to = "x" },
  { from = "g", port = 1, to = "y" },
  { from = "x", to = "m" },
  { from = "y", to = "m" },
  { from = "m", to = "out" },
]
"#;

/// A filter with a map on each of its two ways.
pub const TWO_PARTS: &str = r#"
columns = ["amount:cents"]
node = [
  { name = "card", kind = "source" },
  { name = "g", kind = "filter", when = [["amount", ">=", 100]] },
  { name = "x", kind = "map", steps = [] },
  { name = "y", kind = "map", steps = [] },
  { name = "more", kind = "sink", columns = ["amount"] },
  { name = "less", kind = "sink", columns = ["amount"] },
]
edge = [
  { from = "card", to = "g" },
  { from = "g", to = "x" },
  { from = "g", port = 1, to = "y" },
  { from = "x", to = "more" },
  { from = "y", to = "less" },
]
"#;
