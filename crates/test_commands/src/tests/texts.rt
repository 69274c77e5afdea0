//! A job and alerts that several tests share.

/// The header of the alerts of a chain.
pub const HEADER: &str = "sink,row,account,merchant,amount,tags\n";

/// What the four payments leave where the filter's threshold falls to 50.00 before the first row:
/// the alerts of examples/chain.
pub const FOUR_ALERTS: &str = "sink,row,account,merchant,amount,tags
alerts,1,a,m,99.99,
alerts,2,b,m,100.00,
alerts,3,c,m,50.00,
alerts,4,d,m,120.00,
";

/// A replicate, each of whose two copies goes over a map to a sink of its own.
pub const COPIES: &str = r#"columns = ["amount:cents"]
node = [
  { name = "card", kind = "source" },
  { name = "r", kind = "replicate" },
  { name = "a", kind = "map", steps = [] },
  { name = "b", kind = "map", steps = [] },
  { name = "o", kind = "sink", columns = ["amount"] },
  { name = "p", kind = "sink", columns = ["amount"] },
]
edge = [
  { from = "card", to = "r" },
  { from = "r", to = "a" },
  { from = "r", port = 1, to = "b" },
  { from = "a", to = "o" },
  { from = "b", to = "p" },
]
"#;
