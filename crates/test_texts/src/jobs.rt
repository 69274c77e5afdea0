/// Rows of `p` go over `a` to `b`, rows of `q` go to `b` at once.
pub const TWO_SOURCES: &str = r#"
columns = ["amount:cents"]
node = [
  { name = "p", kind = "source" },
  { name = "q", kind = "source" },
  { name = "a", kind = "map", steps = [] },
  { name = "b", kind = "map", steps = [] },
  { name = "out", kind = "sink", columns = ["amount"] },
]
edge = [
  { from = "p", to = "a" },
  { from = "a", to = "b" },
  { from = "q", to = "b" },
  { from = "b", to = "out" },
]
"#;

/// A counter of three workers.
pub const COUNTER: &str = r#"columns = ["account:text", "seen:number:own"]
node = [
  { name = "card", kind = "source" },
  { name = "c", kind = "count", workers = 3, key = "account", add = 1, into = "seen" },
  { name = "out", kind = "sink", columns = ["account", "seen"] },
]
edge = [{ from = "card", to = "c" }, { from = "c", to = "out" }]
"#;

/// Three maps in a ring.
pub const RING: &str = r#"columns = ["amount:cents"]
[[node]]
name = "a"
kind = "map"
steps = []
[[node]]
name = "b"
kind = "map"
steps = []
[[node]]
name = "c"
kind = "map"
steps = []
[[edge]]
from = "a"
to = "b"
[[edge]]
from = "b"
to = "c"
[[edge]]
from = "c"
to = "a"
"#;

/// A map that requests may make a split into three, before a filter.
pub const ROOF: &str = r#"columns = ["account:text", "merchant:text", "amount:cents", "tags:text"]

[[node]]
name = "card"
kind = "source"
[[node]]
name = "u"
kind = "map"
steps = []
roof = 3
[[node]]
name = "m"
kind = "filter"
when = []
[[node]]
name = "out"
kind = "sink"
columns = ["account", "merchant", "amount", "tags"]

[[edge]]
from = "card"
to = "u"
[[edge]]
from = "u"
to = "m"
[[edge]]
from = "m"
to = "out"
"#;
