//! The stages that random jobs are made of.

/// A stage of a job. In its texts `#` is the number of the stage, `<` the node before it, `%` a
/// number of workers, and `*` a digit.
pub struct Stage {
    /// Its nodes and edges.
    pub text: &'static str,
    /// The letter of the node that its tuples leave.
    pub exit: char,
    /// A change that leaves the meaning of each function.
    pub same: &'static str,
    /// A change that turns the meaning of one function.
    pub other: &'static str,
}

const MAP: Stage = Stage {
    text: r#"
[[node]]
name = "a#"
kind = "map"
workers = %
steps = [["n", "add", "n", *]]
[[edge]]
from = "<"
to = "a#"
"#,
    exit: 'a',
    same: r#"
[[request.change]]
node = "a#"
from = 0
kind = "map"
steps = [["n", "add", "n", 5], ["n", "add", "n", *], ["n", "sub", "n", 5]]
"#,
    other: r#"
[[request.change]]
node = "a#"
from = 0
kind = "map"
steps = [["n", "mul", "n", 3]]
"#,
};

const FILTER: Stage = Stage {
    text: r#"
[[node]]
name = "f#"
kind = "filter"
workers = %
when = [["n", ">=", *]]
[[edge]]
from = "<"
to = "f#"
"#,
    exit: 'f',
    same: r#"
[[request.change]]
node = "f#"
from = 0
kind = "filter"
when = [["n", ">=", 0], ["n", ">=", *]]
"#,
    other: r#"
[[request.change]]
node = "f#"
from = 0
kind = "filter"
when = [["n", ">=", 5*]]
"#,
};

const CLAMP: Stage = Stage {
    text: r#"
[[node]]
name = "k#"
kind = "clamp"
workers = %
on = "n"
low = *
high = 5*
[[edge]]
from = "<"
to = "k#"
"#,
    exit: 'k',
    same: r#"
[[request.change]]
node = "k#"
from = 0
kind = "map"
steps = [["n", "max", "n", *], ["n", "min", "n", 5*]]
"#,
    other: r#"
[[request.change]]
node = "k#"
from = 0
kind = "clamp"
on = "n"
low = 4*
high = 4*
"#,
};

const SPLIT: Stage = Stage {
    text: r#"
[[node]]
name = "s#"
kind = "split"
workers = %
on = "tags"
by = ";"
most = 3
[[edge]]
from = "<"
to = "s#"
"#,
    exit: 's',
    same: r#"
[[request.change]]
node = "s#"
from = 0
kind = "split"
on = "tags"
by = ";"
most = 3
"#,
    other: r#"
[[request.change]]
node = "s#"
from = 0
kind = "split"
on = "tags"
by = "."
most = 2
"#,
};

/// Two copies, one of which takes a longer way, meet again.
const COPIES: Stage = Stage {
    text: r#"
[[node]]
name = "r#"
kind = "replicate"
workers = %
[[node]]
name = "x#"
kind = "map"
workers = %
steps = [["n", "add", "n", *]]
[[node]]
name = "z#"
kind = "map"
workers = %
steps = [["n", "add", "n", 1]]
[[edge]]
from = "<"
to = "r#"
[[edge]]
from = "r#"
to = "x#"
[[edge]]
from = "r#"
port = 1
to = "z#"
[[edge]]
from = "x#"
to = "z#"
"#,
    exit: 'z',
    same: r#"
[[request.change]]
node = "x#"
from = 0
kind = "map"
steps = [["n", "add", "n", 2], ["n", "add", "n", *], ["n", "sub", "n", 2]]
[[request.change]]
node = "z#"
from = 0
kind = "map"
steps = [["n", "sub", "n", 1], ["n", "add", "n", 2]]
"#,
    other: r#"
[[request.change]]
node = "z#"
from = 0
kind = "map"
steps = [["n", "mul", "n", 2]]
"#,
};

/// Tuples from two ports of a filter meet again.
const PARTED: Stage = Stage {
    text: r#"
[[node]]
name = "p#"
kind = "filter"
workers = %
when = [["n", ">=", 4*]]
[[node]]
name = "u#"
kind = "map"
workers = %
steps = [["n", "add", "n", *]]
[[node]]
name = "v#"
kind = "map"
workers = %
steps = [["n", "mul", "n", 2]]
[[node]]
name = "w#"
kind = "map"
workers = %
steps = []
[[edge]]
from = "<"
to = "p#"
[[edge]]
from = "p#"
to = "u#"
[[edge]]
from = "p#"
port = 1
to = "v#"
[[edge]]
from = "u#"
to = "w#"
[[edge]]
from = "v#"
to = "w#"
"#,
    exit: 'w',
    same: r#"
[[request.change]]
node = "p#"
from = 0
kind = "filter"
when = [["n", ">=", 4*], ["n", ">=", 0]]
[[request.change]]
node = "w#"
from = 0
kind = "map"
steps = [["n", "add", "n", 0]]
"#,
    other: r#"
[[request.change]]
node = "u#"
from = 0
kind = "map"
steps = [["n", "sub", "n", *]]
"#,
};

pub const STAGES: [Stage; 6] = [MAP, FILTER, CLAMP, SPLIT, COPIES, PARTED];

/// A source. Its tuples leave it for the first stage.
pub const SOURCES: &str = r#"columns = ["n:number", "tags:text"]
[[node]]
name = "a0"
kind = "source"
"#;

pub const SINK: &str = r#"
[[node]]
name = "out"
kind = "sink"
columns = ["n", "tags"]
[[edge]]
from = "<"
to = "out"
"#;

/// Texts for the split to cut.
pub const TAGS: [&str; 5] = ["", "a", "b;c", "d.e", "f;g;h;i"];
