//! The stages that random jobs are made of.

/// A stage of a job. In its texts `#` is the number of the stage, `<` that of the stage before it,
/// `%` a number of workers, and `*` a digit. Tuples enter it by an edge from `e<`, and leave it at
/// `e#`.
pub struct Stage {
    /// Its nodes and edges.
    pub text: &'static str,
    /// A change that leaves the meaning of each function.
    pub same: &'static str,
    /// A change that turns the meaning of one function.
    pub other: &'static str,
}

/// A source, and a count with one lane into each worker: what it counts doesn't depend on the
/// schedule.
pub const HEAD: &str = r#"columns = ["n:number", "tags:text", "seen:number:own", "late:number:own"]
[[node]]
name = "a"
kind = "source"
[[node]]
name = "e0"
kind = "count"
workers = %
key = "tags"
add = 1
into = "seen"
[[edge]]
from = "a"
to = "e0"
"#;

/// Counts afresh, by two.
const COUNT_OTHER: &str = r#"
[[request.change]]
node = "e0"
from = 0
kind = "count"
key = "tags"
add = 2
into = "seen"
carry = "reset"
"#;

/// A change of the first count that leaves what it means.
const COUNT_SAME: &str = r#"
[[request.change]]
node = "e0"
from = 0
kind = "count"
key = "tags"
add = 1
into = "seen"
carry = ["scale", 3, 3]
"#;

const FILTER: Stage = Stage {
    text: r#"
[[node]]
name = "e#"
kind = "filter"
workers = %
when = [["n", ">=", *]]
[[edge]]
from = "e<"
to = "e#"
"#,
    same: r#"
[[request.change]]
node = "e#"
from = 0
kind = "filter"
when = [["n", ">=", 0], ["n", ">=", *]]
"#,
    other: r#"
[[request.change]]
node = "e#"
from = 0
kind = "filter"
when = [["n", ">=", 5*]]
"#,
};

const SPLIT: Stage = Stage {
    text: r#"
[[node]]
name = "e#"
kind = "split"
workers = %
on = "tags"
by = ";"
most = 3
[[edge]]
from = "e<"
to = "e#"
"#,
    same: r#"
[[request.change]]
node = "e#"
from = 0
kind = "split"
on = "tags"
by = ";"
most = 3
"#,
    other: r#"
[[request.change]]
node = "e#"
from = 0
kind = "split"
on = "tags"
by = "."
most = 2
"#,
};

/// Two copies, one of which takes a longer way, meet again.
const COPIES: Stage = Stage {
    text: r#"
[[node]]
name = "r#"
kind = "replicate"
workers = %
[[node]]
name = "x#"
kind = "map"
workers = %
steps = [["n", "add", "n", *]]
[[node]]
name = "e#"
kind = "map"
workers = %
steps = [["n", "add", "n", 1]]
[[edge]]
from = "e<"
to = "r#"
[[edge]]
from = "r#"
to = "x#"
[[edge]]
from = "r#"
port = 1
to = "e#"
[[edge]]
from = "x#"
to = "e#"
"#,
    same: r#"
[[request.change]]
node = "x#"
from = 0
kind = "map"
steps = [["n", "add", "n", 2], ["n", "add", "n", *], ["n", "sub", "n", 2]]
[[request.change]]
node = "e#"
from = 0
kind = "map"
steps = [["n", "sub", "n", 1], ["n", "add", "n", 2]]
"#,
    other: r#"
[[request.change]]
node = "e#"
from = 0
kind = "map"
steps = [["n", "mul", "n", 2]]
"#,
};

/// The second count. Several lanes lead to its workers, so no alert shows what it counts.
const COUNT: Stage = Stage {
    text: r#"
[[node]]
name = "e#"
kind = "count"
workers = %
key = "tags"
add = "n"
into = "late"
[[edge]]
from = "e<"
to = "e#"
"#,
    same: r#"
[[request.change]]
node = "e#"
from = 0
kind = "count"
key = "tags"
add = "n"
into = "late"
"#,
    other: r#"
[[request.change]]
node = "e#"
from = 0
kind = "count"
key = "tags"
add = *
into = "late"
carry = "reset"
"#,
};

/// A change of the first count alone.
pub const COUNTS: Stage = Stage {
    text: "",
    same: COUNT_SAME,
    other: COUNT_OTHER,
};

pub const STAGES: [Stage; 4] = [FILTER, SPLIT, COPIES, COUNT];

/// The sink, which doesn't show what later counts count.
pub const SINK: &str = r#"
[[node]]
name = "out"
kind = "sink"
columns = ["n", "tags", "seen"]
[[edge]]
from = "e<"
to = "out"
"#;

/// Texts for the split to cut.
pub const TAGS: [&str; 5] = ["", "a", "b;c", "d.e", "f;g;h;i"];
