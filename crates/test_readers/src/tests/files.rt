/// A node of each kind, one behind another.
pub const KINDS: &str = r#"columns = ["who:text", "sum:number", "tags:text"]

[tables.known]
ann = 3

[[node]]
name = "card"
kind = "source"
[[node]]
name = "pieces"
kind = "split"
on = "tags"
by = ";"
most = 3
roof = 4
[[node]]
name = "big"
kind = "filter"
when = [["sum", ">=", 100]]
[[node]]
name = "tally"
kind = "count"
workers = 5
key = "who"
add = 1
into = "sum"
[[node]]
name = "add"
kind = "map"
steps = []
roof = 2
[[node]]
name = "rate"
kind = "enrich"
key = "who"
into = "sum"
table = "known"
other = 0
[[node]]
name = "once"
kind = "dedupe"
workers = 3
key = "who"
[[node]]
name = "within"
kind = "clamp"
workers = 2
on = "sum"
low = 0
high = 500
roof = 3
[[node]]
name = "both"
kind = "replicate"
[[node]]
name = "out"
kind = "sink"
columns = []
[[node]]
name = "log"
kind = "sink"
columns = []

[[edge]]
from = "card"
to = "pieces"
[[edge]]
from = "pieces"
to = "big"
[[edge]]
from = "big"
to = "tally"
[[edge]]
from = "tally"
to = "add"
[[edge]]
from = "add"
to = "rate"
[[edge]]
from = "rate"
to = "once"
[[edge]]
from = "once"
to = "within"
[[edge]]
from = "within"
to = "both"
[[edge]]
from = "both"
to = "out"
[[edge]]
from = "both"
to = "log"
port = 1
"#;
