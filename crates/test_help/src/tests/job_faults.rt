use crate::tests::{Case, JOB, RUN, check_told, told_of, with};
use fries_lines::Fault;
use job_file::read_job;
use std::alloc::Global;
use tuple_trace::NoMemory;

/// The function of the node `big`.
const FILTER: &str = r#"kind = "filter"
when = [["amount", ">=", 100]]"#;

const CASES: &[Case] = &[
    Case {
        old: "[[edge]]",
        new: "[[edge]",
        told: "fries: job file `job.toml`: J1 (line 17)
  The job file is no TOML document.
  There the reader found: unclosed array table, expected `]]`.
  Correct the text there: strings stand in quotes, and each node begins with `[[node]]`.
",
    },
    Case {
        old: "kind = \"sink\"",
        new: "kind = \"drain\"",
        told: "fries: job file `job.toml`: J2 kind (node 2, `out`, kind `drain`, line 12)
  This key is missing, isn't in the layout, or its value isn't of the form it asks for.
  Line 14 has `kind = \"drain\"`; `kind` is to be source, filter, map, enrich, count, dedupe, \
clamp, split, replicate or sink, as a string.
  Compare the keys of the file with the layout in docs/JOBS.md.
",
    },
    Case {
        old: "100]]",
        new: "100.0]]",
        told: "fries: job file `job.toml`: J2 when (node 1, `big`, kind `filter`, line 7)
  This key is missing, isn't in the layout, or its value isn't of the form it asks for.
  Line 10 has `when = [[\"amount\", \">=\", 100.0]]`; `when` is to be an array of arrays \
`[column, test, literal]`, as [[\"amount\", \">=\", 5000]]; tests are = != < <= > >=, \
and literals whole numbers (amounts in cents) or strings.
  Compare the keys of the file with the layout in docs/JOBS.md.
",
    },
    Case {
        old: "when =",
        new: "whn =",
        told: "fries: job file `job.toml`: J2 unknown (node 1, `big`, kind `filter`, line 7)
  This key is missing, isn't in the layout, or its value isn't of the form it asks for.
  Line 10 has `whn = [[\"amount\", \">=\", 100]]`; its keys are `name`, `kind`, `workers`, \
`roof`, `when`.
  Compare the keys of the file with the layout in docs/JOBS.md.
",
    },
    Case {
        old: "columns = [\"account\"]\n",
        new: "",
        told: "fries: job file `job.toml`: J2 columns (node 2, `out`, kind `sink`, line 12)
  This key is missing, isn't in the layout, or its value isn't of the form it asks for.
  It has no `columns`; `columns` is to be an array of names of columns, as strings.
  Compare the keys of the file with the layout in docs/JOBS.md.
",
    },
    Case {
        old: "amount:cents",
        new: "amount:cent",
        told: "fries: job file `job.toml`: J2 columns
  This key is missing, isn't in the layout, or its value isn't of the form it asks for.
  Line 1 has `columns = [\"account:text\", \"amount:cent\", \"seen:number:own\"]`, and \
`amount:cent` is no column; each column is to be a string `NAME:KIND` or `NAME:KIND:own`, with a \
NAME of a-z, 0-9 and _, and text, number or cents as KIND.
  Compare the keys of the file with the layout in docs/JOBS.md.
",
    },
    Case {
        old: "from = \"big\"",
        new: "from = \"big\"\nport = -1",
        told: "fries: job file `job.toml`: J2 port (edge 1, `big` to `out`, line 21)
  This key is missing, isn't in the layout, or its value isn't of the form it asks for.
  Line 23 has `port = -1`; `port` is to be a whole number, 0 or more.
  Compare the keys of the file with the layout in docs/JOBS.md.
",
    },
    Case {
        old: "[[edge]]",
        new: "[tables.risks]\nann = 1.5\n[[edge]]",
        told: "fries: job file `job.toml`: J2 tables (table `risks`)
  This key is missing, isn't in the layout, or its value isn't of the form it asks for.
  Its entry `ann` is to be a whole number or a string.
  Compare the keys of the file with the layout in docs/JOBS.md.
",
    },
    Case {
        old: FILTER,
        new: "kind = \"clamp\"\non = \"amount\"\nlow = 5\nhigh = 4",
        told: "fries: job file `job.toml`: J2 high (node 1, `big`, kind `clamp`, line 7)
  This key is missing, isn't in the layout, or its value isn't of the form it asks for.
  Line 12 has `high = 4`; `high` is to be a whole number, not below `low`.
  Compare the keys of the file with the layout in docs/JOBS.md.
",
    },
    // The clamp before it has lawful ends.
    Case {
        old: FILTER,
        new: r#"kind = "clamp"
on = "amount"
low = 5
high = 5

[[node]]
name = "later"
kind = "clamp"
high = 9
on = "amount"
low = 10"#,
        told: "fries: job file `job.toml`: J2 high (node 2, `later`, kind `clamp`, line 14)
  This key is missing, isn't in the layout, or its value isn't of the form it asks for.
  Line 17 has `high = 9`; `high` is to be a whole number, not below `low`.
  Compare the keys of the file with the layout in docs/JOBS.md.
",
    },
    Case {
        old: FILTER,
        new: "kind = \"clamp\"\non = \"amount\"\nlow = 5",
        told: "fries: job file `job.toml`: J2 high (node 1, `big`, kind `clamp`, line 7)
  This key is missing, isn't in the layout, or its value isn't of the form it asks for.
  It has no `high`; `high` is to be a whole number, not below `low`.
  Compare the keys of the file with the layout in docs/JOBS.md.
",
    },
    Case {
        old: FILTER,
        new: "kind = \"clamp\"\non = \"amount\"\nlow = \"a\"\nhigh = 4",
        told: "fries: job file `job.toml`: J2 low (node 1, `big`, kind `clamp`, line 7)
  This key is missing, isn't in the layout, or its value isn't of the form it asks for.
  Line 11 has `low = \"a\"`; `low` is to be a whole number.
  Compare the keys of the file with the layout in docs/JOBS.md.
",
    },
    Case {
        old: FILTER,
        new: "kind = \"clamp\"\non = \"amount\"\nlow = 1\nhigh = 4\nmost = 2",
        told: "fries: job file `job.toml`: J2 unknown (node 1, `big`, kind `clamp`, line 7)
  This key is missing, isn't in the layout, or its value isn't of the form it asks for.
  Line 13 has `most = 2`; its keys are `name`, `kind`, `workers`, `roof`, `on`, `low`, `high`.
  Compare the keys of the file with the layout in docs/JOBS.md.
",
    },
    Case {
        old: FILTER,
        new: "kind = \"dedupe\"\nroof = 1\nkey = \"account\"",
        told: "fries: job file `job.toml`: J2 unknown (node 1, `big`, kind `dedupe`, line 7)
  This key is missing, isn't in the layout, or its value isn't of the form it asks for.
  Line 10 has `roof = 1`; its keys are `name`, `kind`, `workers`, `key`.
  Compare the keys of the file with the layout in docs/JOBS.md.
",
    },
    Case {
        old: "kind = \"filter\"",
        new: "kind = \"filter\"\nworkers = 9",
        told: "fries: job file `job.toml`: J3 workers 9 (node 1, `big`, kind `filter`, line 7)
  A count or a size in the job file is outside its limit.
  Line 10 has `workers = 9`. A node has 1 to 8 workers, and a source or a sink has 1.
  Bring the count or the size within its limit.
",
    },
    Case {
        old: "[[node]]",
        new: "more = 1\n[[node]]",
        told: "fries: job file `job.toml`: J2 unknown
  This key is missing, isn't in the layout, or its value isn't of the form it asks for.
  Line 3 has `more = 1`; the keys of the file are `columns`, `tables`, `node`, `edge`.
  Compare the keys of the file with the layout in docs/JOBS.md.
",
    },
    Case {
        old: "name = \"big\"",
        new: "name = \"Big\"",
        told: "fries: job file `job.toml`: J2 name (node 1, `Big`, kind `filter`, line 7)
  This key is missing, isn't in the layout, or its value isn't of the form it asks for.
  Line 8 has `name = \"Big\"`; `name` is to be a string of 1 to 32 characters of a-z, 0-9 and _.
  Compare the keys of the file with the layout in docs/JOBS.md.
",
    },
    Case {
        old: "to = \"out\"\n",
        new: "",
        told: "fries: job file `job.toml`: J2 to (edge 1, line 21)
  This key is missing, isn't in the layout, or its value isn't of the form it asks for.
  It has no `to`; `to` is to be the name of a node, as a string.
  Compare the keys of the file with the layout in docs/JOBS.md.
",
    },
    Case {
        old: "[\"amount\", \">=\", 100]",
        new: "[\"account\", \"=\", \"xxxxxxxxxxxxxxxxxxxxxxxxxxxxxxxxxxxxxxxxxxxxxxxxx\"]",
        told: "fries: job file `job.toml`: J3 text 49 (node 1, `big`, kind `filter`, line 7)
  A count or a size in the job file is outside its limit.
  Line 10 has `when = [[\"account\", \"=\", \"xxxxxxxxxxxxxxxxxxxxxxxxxxxxxxxxxx..`. \
A text, and the key of a table's entry, has at most 48 bytes.
  Bring the count or the size within its limit.
",
    },
    Case {
        old: "name = \"out\"",
        new: "name = \"big\"",
        told: "fries: job file `job.toml`: J4 node 2 (`big`, kind `sink`, line 12)
  This node or column has the name of an earlier one.
  Give one of the two another name.
",
    },
    Case {
        old: "amount:cents",
        new: "account:cents",
        told: "fries: job file `job.toml`: J4 column 1 (`account:cents`)
  This node or column has the name of an earlier one.
  Give one of the two another name.
",
    },
    Case {
        old: "to = \"out\"",
        new: "to = \"ou\"",
        told: "fries: job file `job.toml`: J5 edge 1 (`big` to `ou`, line 21)
  An end of this edge names no node.
  Its `to` is `ou`, and no node has this name.
  Write the names of nodes in `from` and `to`, or add the missing node.
",
    },
    Case {
        old: "from = \"big\"",
        new: "from = \"card\"",
        told: "fries: job file `job.toml`: J6 node 0 (`card`, kind `source`, line 3)
  The node's edges aren't those of its kind, or two of them lead to one node.
  A source has no edge in, and one out on port 0. This one has 0 in and 2 out.
  Add or remove edges, or change their `port`.
",
    },
    Case {
        old: "columns = [\"account\"]\n",
        new: r#"columns = ["account"]
[[node]]
name = "a"
kind = "map"
steps = []
[[node]]
name = "b"
kind = "map"
steps = []
[[edge]]
from = "a"
to = "b"
[[edge]]
from = "b"
to = "a"
"#,
        told: "fries: job file `job.toml`: J7 node 3 (`a`, kind `map`, line 16)
  The node lies on a cycle: tuples could come back to it.
  Remove an edge of the cycle, so that all ways end at sinks.
",
    },
    Case {
        old: "[\"amount\"",
        new: "[\"amont\"",
        told: "fries: job file `job.toml`: J8 node 1 (`big`, kind `filter`, line 7)
  A column, test or literal of this node doesn't fit, or an entry of its table doesn't.
  Line 10 has `when = [[\"amont\", \">=\", 100]]`, and `amont` is no column of the job. \
The job's columns are `account:text`, `amount:cents`, `seen:number:own`.
  Check each column's name and kind; a text takes only the tests `=` and `!=`.
",
    },
    Case {
        old: FILTER,
        new: "kind = \"dedupe\"\nkey = \"amount\"",
        told: "fries: job file `job.toml`: J8 node 1 (`big`, kind `dedupe`, line 7)
  A column, test or literal of this node doesn't fit, or an entry of its table doesn't.
  Line 10 has `key = \"amount\"`, and `amount` holds no texts, which are wanted here. \
The job's columns are `account:text`, `amount:cents`, `seen:number:own`.
  Check each column's name and kind; a text takes only the tests `=` and `!=`.
",
    },
    Case {
        old: FILTER,
        new: "kind = \"clamp\"\non = \"account\"\nlow = 1\nhigh = 2",
        told: "fries: job file `job.toml`: J8 node 1 (`big`, kind `clamp`, line 7)
  A column, test or literal of this node doesn't fit, or an entry of its table doesn't.
  Line 10 has `on = \"account\"`, and `account` holds texts, where numbers or cents are wanted. \
The job's columns are `account:text`, `amount:cents`, `seen:number:own`.
  Check each column's name and kind; a text takes only the tests `=` and `!=`.
",
    },
    Case {
        old: FILTER,
        new: r#"kind = "enrich"
key = "account"
into = "seen"
table = "risks"
other = "none""#,
        told: "fries: job file `job.toml`: J8 node 1 (`big`, kind `enrich`, line 7)
  A column, test or literal of this node doesn't fit, or an entry of its table doesn't.
  Line 13 has `other = \"none\"`, and `seen` holds numbers or cents, so a whole number is wanted. \
The job's columns are `account:text`, `amount:cents`, `seen:number:own`.
  Check each column's name and kind; a text takes only the tests `=` and `!=`.
",
    },
    Case {
        old: r#"kind = "filter"
when = [["amount", ">=", 100]]
"#,
        new: r#"kind = "enrich"
key = "account"
into = "seen"
table = "risks"
other = 1

[tables.risks]
ann = 3
"b c" = "high"
"#,
        told: "fries: job file `job.toml`: J8 node 1 (`big`, kind `enrich`, line 7)
  A column, test or literal of this node doesn't fit, or an entry of its table doesn't.
  Line 12 has `table = \"risks\"`, and `b c` is a string there, but `into` is a column of numbers \
or cents. Line 17 of the job file has `\"b c\" = \"high\"`. \
The job's columns are `account:text`, `amount:cents`, `seen:number:own`.
  Check each column's name and kind; a text takes only the tests `=` and `!=`.
",
    },
    Case {
        old: FILTER,
        new: r#"kind = "enrich"
key = "account"
into = "seen"
table = "risks"
other = 1"#,
        told: "fries: job file `job.toml`: J9 node 1 (`big`, kind `enrich`, line 7)
  The table that this node names isn't there.
  It names the table `risks`.
  Add it under `[tables]`, or name a table that is there.
",
    },
    Case {
        old: "from = \"big\"",
        new: r#"from = "big"
to = "a"
[[node]]
name = "a"
kind = "split"
on = "account"
by = ";"
most = 16
[[node]]
name = "b"
kind = "split"
on = "account"
by = ";"
most = 16
[[node]]
name = "c"
kind = "split"
on = "account"
by = ";"
most = 16
[[edge]]
from = "a"
to = "b"
[[edge]]
from = "b"
to = "c"
[[edge]]
from = "c""#,
        told: "fries: job file `job.toml`: J10 weight 4370
  The job is too heavy: one row may bring more than 1,024 tuples to its nodes.
  Lower `most` and `roof` of splits, or let fewer ways follow them.
",
    },
];

// What is told of the fault of this job file. Nothing is, if it has none.
fn told_of_case(alloc: Global, case: Case) -> Result<String, NoMemory> {
    let text = with(alloc, JOB, case)?;
    let Err(fault) = read_job(alloc, text.as_bytes()) else {
        return Ok(String::new(alloc));
    };
    let files = [("job.toml", text.as_str())];
    told_of(alloc, &files, RUN, Some(Fault::Job(fault)), &[])
}

#[test]
fn each_fault_of_a_job_is_told(rt: HostRuntime) {
    for case in CASES {
        check_told(&rt, told_of_case(rt.alloc(), *case), case.told);
    }
}
