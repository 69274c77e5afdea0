use crate::tests::{Case, JOB, RUN, check_told, check_told_after, told_of, with};
use fries_lines::Fault;
use job_file::{read_job, read_requests};
use std::alloc::Global;
use tuple_trace::NoMemory;
use versions::{Refused, judge_all};

const REQUESTS: &str = r#"[[request]]
after = 1

[[request.change]]
node = "big"
from = 0
kind = "filter"
when = [["amount", ">=", 200]]
"#;

const FAULTS: &[Case] = &[
    Case {
        old: "[[request.change]]",
        new: "[[request.change]",
        told: "fries: request file `requests.toml`: F1 (line 4)
  The request file is no TOML document.
  There the reader found: unclosed array table, expected `]]`.
  Correct the text there: strings stand in quotes; a request begins with `[[request]]`.
",
    },
    Case {
        old: "from",
        new: "form",
        told: "fries: request file `requests.toml`: F2 from \
(request 1, change 1 of `big`, line 4)
  This key is missing, isn't in the layout, or its value isn't of the form it asks for.
  It has no `from`; `from` is to be the version of the node, a whole number, 0 or more.
  Compare the keys of the file with the layout in docs/REQUESTS.md.
",
    },
    Case {
        old: "after = 1",
        new: "after = 1048577",
        told: "fries: request file `requests.toml`: F3 after 1048577 (request 1, line 1)
  A count or a size in the request file is outside its limit.
  Line 2 has `after = 1048577`. A request's `after` is 0 to 1,048,576.
  Bring the count or the size within its limit.
",
    },
    Case {
        old: "from = 0",
        new: "from = 0\nform = 1",
        told: "fries: request file `requests.toml`: F2 unknown \
(request 1, change 1 of `big`, line 4)
  This key is missing, isn't in the layout, or its value isn't of the form it asks for.
  Line 7 has `form = 1`; its keys are `node`, `from`, `kind`, `carry`, `when`.
  Compare the keys of the file with the layout in docs/REQUESTS.md.
",
    },
    Case {
        old: "from = 0",
        new: "from = 0\ncarry = \"drop\"",
        told: "fries: request file `requests.toml`: F2 carry \
(request 1, change 1 of `big`, line 4)
  This key is missing, isn't in the layout, or its value isn't of the form it asks for.
  Line 7 has `carry = \"drop\"`; `carry` is to be \"keep\", \"reset\", [\"scale\", p, q] or \
[\"below\", n]; p, q, n whole numbers.
  Compare the keys of the file with the layout in docs/REQUESTS.md.
",
    },
    Case {
        old: FILTER,
        new: "kind = \"clamp\"\non = \"amount\"\nlow = 2\nhigh = 1",
        told: "fries: request file `requests.toml`: F2 high \
(request 1, change 1 of `big`, line 4)
  This key is missing, isn't in the layout, or its value isn't of the form it asks for.
  Line 10 has `high = 1`; `high` is to be a whole number, not below `low`.
  Compare the keys of the file with the layout in docs/REQUESTS.md.
",
    },
    Case {
        old: "200]]\n",
        new: "200]]\n[[request]]\nafter = \"1\"\n",
        told: "fries: request file `requests.toml`: F2 after (request 2, line 9)
  This key is missing, isn't in the layout, or its value isn't of the form it asks for.
  Line 10 has `after = \"1\"`; `after` is to be a whole number.
  Compare the keys of the file with the layout in docs/REQUESTS.md.
",
    },
    Case {
        old: "200]]\n",
        new: r#"200]]
[[request]]
after = 2
[[request.change]]
node = "big"
from = 1
kind = "filter"
when = [["account", "=", "xxxxxxxxxxxxxxxxxxxxxxxxxxxxxxxxxxxxxxxxxxxxxxxxx"]]
"#,
        told: "fries: request file `requests.toml`: F3 text 49 \
(request 2, change 1 of `big`, line 11)
  A count or a size in the request file is outside its limit.
  Line 15 has `when = [[\"account\", \"=\", \"xxxxxxxxxxxxxxxxxxxxxxxxxxxxxxxxxx..`. \
A text, and the key of a table's entry, has at most 48 bytes.
  Bring the count or the size within its limit.
",
    },
];

/// What is told first of all refusals.
const HEAD: &str = "fries: request file `requests.toml`
  Requests were refused: nothing of them is done, and all others are.
  Correct or remove each request that is named here.
";

const REFUSALS: &[Case] = &[
    Case {
        old: "node = \"big\"",
        new: "node = \"bgi\"",
        told: "Q1 at request 1, line 1, change 1 of `bgi`
  The change names no node of the job.
  Correct the name.
",
    },
    Case {
        old: "node = \"big\"",
        new: "node = \"card\"",
        told: "Q2 at request 1, line 1, change 1 of `card`
  The change names a source, a sink or a replicate, which never change.
  Remove the change.
",
    },
    Case {
        old: "200]]\n",
        new: "200]]\n[[request.change]]\nnode = \"big\"\nfrom = 0\nkind = \"map\"\nsteps = []\n",
        told: "Q3 at request 1, line 1, change 2 of `big`
  An earlier change of this request names the same node.
  Keep one of the two.
",
    },
    Case {
        old: "from = 0",
        new: "from = 1",
        told: "Q4 at request 1, line 1, change 1 of `big`
  The change was written for another version of its node than the one in force.
  The node has version 0; `from = 0` is right for it now.
  See what the accepted requests before it changed, and then correct `from`.
",
    },
    Case {
        old: "amount",
        new: "amont",
        told: "Q5 at request 1, line 1, change 1 of `big`
  The new function doesn't fit the job: a column, a table, a test or a literal.
  Line 8 has `when = [[\"amont\", \">=\", 200]]`, and `amont` is no column of the job. \
The job's columns are `account:text`, `amount:cents`, `seen:number:own`.
  Check each name against the job, and each literal against its column's kind.
",
    },
    Case {
        old: "kind = \"filter\"\nwhen = [[\"amount\", \">=\", 200]]",
        new: "kind = \"enrich\"\nkey = \"account\"\ninto = \"seen\"\ntable = \"risks\"\nother = 1",
        told: "Q5 at request 1, line 1, change 1 of `big`
  The new function doesn't fit the job: a column, a table, a test or a literal.
  It names the table `risks`, and the job has none. A request brings no table of its own.
  Check each name against the job, and each literal against its column's kind.
",
    },
    Case {
        old: FILTER,
        new: "kind = \"clamp\"\non = \"account\"\nlow = 1\nhigh = 2",
        told: "Q5 at request 1, line 1, change 1 of `big`
  The new function doesn't fit the job: a column, a table, a test or a literal.
  Line 8 has `on = \"account\"`, and `account` holds texts, where numbers or cents are wanted. \
The job's columns are `account:text`, `amount:cents`, `seen:number:own`.
  Check each name against the job, and each literal against its column's kind.
",
    },
    Case {
        old: FILTER,
        new: "kind = \"dedupe\"\nkey = \"account\"",
        told: "Q6 at request 1, line 1, change 1 of `big`
  The node can't become this kind, count by this key, or make so many pieces.
  Keep the kind and the key, or raise the node's `roof` in the job file.
",
    },
    Case {
        old: "kind = \"filter\"\nwhen = [[\"amount\", \">=\", 200]]",
        new: "kind = \"split\"\non = \"account\"\nby = \";\"\nmost = 2",
        told: "Q6 at request 1, line 1, change 1 of `big`
  The node can't become this kind, count by this key, or make so many pieces.
  Keep the kind and the key, or raise the node's `roof` in the job file.
",
    },
    Case {
        old: "from = 0",
        new: "from = 0\ncarry = \"reset\"",
        told: "Q7 at request 1, line 1, change 1 of `big`
  The carry stands at a node that isn't a count, or it divides by less than 1.
  Remove the carry, or write a divisor of at least 1.
",
    },
    Case {
        old: "[[request]]",
        new: "[[request]]\nafter = 0\n[[request]]",
        told: "Q8 at request 1, line 1
  The request has no change.
  Add a change, or remove the request.
",
    },
    Case {
        old: "200]]\n",
        new: r#"200]]
[[request]]
after = 0
[[request.change]]
node = "big"
from = 1
kind = "filter"
when = []
"#,
        told: "Q9 at request 2, line 9
  The request is for an earlier row than an accepted one before it.
  The accepted one is for row 1.
  Put the requests in the order of `after`.
",
    },
];

// What is told of the fault of this request file. Nothing is, if it has none.
fn told_of_fault(alloc: Global, case: Case) -> Result<String, NoMemory> {
    let text = with(alloc, REQUESTS, case)?;
    let Ok(job) = read_job(alloc, JOB.as_bytes()) else {
        return Err(NoMemory);
    };
    let Err(fault) = read_requests(alloc, &job, text.as_bytes()) else {
        return Ok(String::new(alloc));
    };
    let files = [("requests.toml", text.as_str())];
    told_of(alloc, &files, RUN, Some(Fault::Requests(fault)), &[])
}

/// What stands after the job in a job file that has a table.
const TABLE: &str = r#"
[tables.risks]
ann = 3
"b c" = "high"
"#;

/// The function of the change, in the request file.
const FILTER: &str = r#"kind = "filter"
when = [["amount", ">=", 200]]"#;

const REFUSALS_WITH_TABLE: &[Case] = &[
    Case {
        old: FILTER,
        new: r#"kind = "enrich"
key = "account"
into = "seen"
table = "risks"
other = "x""#,
        told: "Q5 at request 1, line 1, change 1 of `big`
  The new function doesn't fit the job: a column, a table, a test or a literal.
  Line 11 has `other = \"x\"`, and `seen` holds numbers or cents, so a whole number is wanted. \
The job's columns are `account:text`, `amount:cents`, `seen:number:own`.
  Check each name against the job, and each literal against its column's kind.
",
    },
    Case {
        old: FILTER,
        new: r#"kind = "enrich"
key = "account"
into = "seen"
table = "risks"
other = 1"#,
        told: "Q5 at request 1, line 1, change 1 of `big`
  The new function doesn't fit the job: a column, a table, a test or a literal.
  Line 10 has `table = \"risks\"`, and `b c` is a string there, but `into` is a column of numbers \
or cents. Line 27 of the job file has `\"b c\" = \"high\"`. \
The job's columns are `account:text`, `amount:cents`, `seen:number:own`.
  Check each name against the job, and each literal against its column's kind.
",
    },
    Case {
        old: FILTER,
        new: r#"kind = "enrich"
key = "account"
into = "account"
table = "risks"
other = 1"#,
        told: "Q5 at request 1, line 1, change 1 of `big`
  The new function doesn't fit the job: a column, a table, a test or a literal.
  Line 11 has `other = 1`, and `account` holds texts, so a string is wanted. \
The job's columns are `account:text`, `amount:cents`, `seen:number:own`.
  Check each name against the job, and each literal against its column's kind.
",
    },
    Case {
        old: FILTER,
        new: r#"kind = "enrich"
key = "account"
into = "account"
table = "risks"
other = """#,
        told: "Q5 at request 1, line 1, change 1 of `big`
  The new function doesn't fit the job: a column, a table, a test or a literal.
  Line 10 has `table = \"risks\"`, and `ann` is a number there, but `into` is a column of texts. \
Line 26 of the job file has `ann = 3`. \
The job's columns are `account:text`, `amount:cents`, `seen:number:own`.
  Check each name against the job, and each literal against its column's kind.
",
    },
];

// What is told of the requests that are refused. Nothing is, if their file has a fault.
fn told_of_refusal(alloc: Global, case: Case) -> Result<String, NoMemory> {
    told_of_job(alloc, JOB, case)
}

// The same over a job file that has a table.
fn told_with_table(alloc: Global, case: Case) -> Result<String, NoMemory> {
    let job = format!(in alloc; "{JOB}{TABLE}")?;
    told_of_job(alloc, job.as_str(), case)
}

fn told_of_job(alloc: Global, job_text: &str, case: Case) -> Result<String, NoMemory> {
    let text = with(alloc, REQUESTS, case)?;
    let Ok(job) = read_job(alloc, job_text.as_bytes()) else {
        return Err(NoMemory);
    };
    let Ok(requests) = read_requests(alloc, &job, text.as_bytes()) else {
        return Ok(String::new(alloc));
    };
    let judged = judge_all(alloc, &job, &requests)?;
    told_of_files(alloc, job_text, text.as_str(), judged.refused.as_slice())
}

// What is told of the refused requests of these files.
fn told_of_files<'a>(
    alloc: Global,
    job: &'a str,
    requests: &'a str,
    refused: &[Refused],
) -> Result<String, NoMemory> {
    let files = [("requests.toml", requests), ("job.toml", job)];
    told_of(alloc, &files, RUN, None, refused)
}

#[test]
fn each_fault_of_a_request_file_is_told(rt: HostRuntime) {
    for case in FAULTS {
        check_told(&rt, told_of_fault(rt.alloc(), *case), case.told);
    }
}

#[test]
fn each_refused_request_is_told(rt: HostRuntime) {
    for case in REFUSALS {
        check_told_after(&rt, HEAD, told_of_refusal(rt.alloc(), *case), case.told);
    }
}

#[test]
fn values_that_do_not_fit_a_column_are_told(rt: HostRuntime) {
    for case in REFUSALS_WITH_TABLE {
        check_told_after(&rt, HEAD, told_with_table(rt.alloc(), *case), case.told);
    }
}
