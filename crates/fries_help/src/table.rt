//! What is said of each code. docs/ERRORS.md is made from these rows by tools/errors. A new row has
//! its place in `specs/Table.antt` too.

/// What is said of a code, in plain sentences. Contracts see them as lists of bytes.
#[derive(Clone, Copy)]
pub struct HelpIn<T> {
    /// The code as it is printed, or the status of a fault that has no code.
    pub code: T,
    /// What the code means.
    pub cause: T,
    /// What to do.
    pub cure: T,
}

/// A row of the table.
pub type Help = HelpIn<&'static str>;

pub const USAGE: Help = Help {
    code: "1",
    cause: "These words have no form that the program knows.",
    cure: "Type `fries --help` for the forms of all commands.",
};

pub const J1: Help = Help {
    code: "J1",
    cause: "The job file is no TOML document.",
    cure: "Correct the text there: strings stand in quotes, and each node begins with `[[node]]`.",
};

pub const J2: Help = Help {
    code: "J2",
    cause: "This key is missing, isn't in the layout, or its value isn't of the form it asks for.",
    cure: "Compare the keys of the file with the layout in docs/JOBS.md.",
};

pub const J3: Help = Help {
    code: "J3",
    cause: "A count or a size in the job file is outside its limit.",
    cure: "Bring the count or the size within its limit.",
};

pub const J4: Help = Help {
    code: "J4",
    cause: "This node or column has the name of an earlier one.",
    cure: "Give one of the two another name.",
};

pub const J5: Help = Help {
    code: "J5",
    cause: "An end of this edge names no node.",
    cure: "Write the names of nodes in `from` and `to`, or add the missing node.",
};

pub const J6: Help = Help {
    code: "J6",
    cause: "The node's edges aren't those of its kind, or two of them lead to one node.",
    cure: "Add or remove edges, or change their `port`.",
};

pub const J7: Help = Help {
    code: "J7",
    cause: "The node lies on a cycle: tuples could come back to it.",
    cure: "Remove an edge of the cycle, so that all ways end at sinks.",
};

pub const J8: Help = Help {
    code: "J8",
    cause: "A column, test or literal of this node doesn't fit, or an entry of its table doesn't.",
    cure: "Check each column's name and kind; a text takes only the tests `=` and `!=`.",
};

pub const J9: Help = Help {
    code: "J9",
    cause: "The table that this node names isn't there.",
    cure: "Add it under `[tables]`, or name a table that is there.",
};

pub const J10: Help = Help {
    code: "J10",
    cause: "The job is too heavy: one row may bring more than 1,024 tuples to its nodes.",
    cure: "Lower `most` and `roof` of splits, or let fewer ways follow them.",
};

pub const F1: Help = Help {
    code: "F1",
    cause: "The request file is no TOML document.",
    cure: "Correct the text there: strings stand in quotes; a request begins with `[[request]]`.",
};

pub const F2: Help = Help {
    code: "F2",
    cause: "This key is missing, isn't in the layout, or its value isn't of the form it asks for.",
    cure: "Compare the keys of the file with the layout in docs/REQUESTS.md.",
};

pub const F3: Help = Help {
    code: "F3",
    cause: "A count or a size in the request file is outside its limit.",
    cure: "Bring the count or the size within its limit.",
};

pub const P1: Help = Help {
    code: "P1",
    cause: "The payments file has no record, not even a header.",
    cure: "Write the header as its first line.",
};

pub const P2: Help = Help {
    code: "P2",
    cause: "The first record isn't `source` and the names of the job's columns, in their order.",
    cure: "Correct the header; leave out the columns that the job marks `own`.",
};

pub const P3: Help = Help {
    code: "P3",
    cause: "This row has another number of fields than the header.",
    cure: "Write one field for each column, and quote a field that has a comma.",
};

pub const P4: Help = Help {
    code: "P4",
    cause: "The first field of this row names no source of the job.",
    cure: "Write the name of a source node there.",
};

pub const P5: Help = Help {
    code: "P5",
    cause: "This field isn't spelled as its column asks, or its value is out of range.",
    cure: "A number is digits after an optional `-`; an amount may add `.` and 1 or 2 digits.",
};

pub const P6: Help = Help {
    code: "P6",
    cause: "The text in this field has more than 48 bytes.",
    cure: "Shorten the text.",
};

pub const P7: Help = Help {
    code: "P7",
    cause: "There are more rows than the weight of the job allows.",
    cure: "Run fewer rows at a time (docs/SAVEPOINTS.md, Long files), or make the job lighter.",
};

pub const S1: Help = Help {
    code: "S1",
    cause: "This record of the savepoint isn't of the form that the command writes, or is missing.",
    cure: "Give the file that `fries save` or `fries stream` wrote, as it was written.",
};

pub const S2: Help = Help {
    code: "S2",
    cause: "The savepoint was made after this row, and there are fewer payments.",
    cure: "Give the payments of the run that was saved, with those before the savepoint.",
};

pub const S3: Help = Help {
    code: "S3",
    cause: "Another number of requests was done before the savepoint than is due by its row now.",
    cure: "Give the requests of the run that was saved; add only requests for later rows.",
};

pub const S3_STREAM: Help = Help {
    code: "S3 record",
    cause: "The request of this record has no such wait: it isn't accepted now, or out of order.",
    cure: "Give the job and the requests of the stream that was saved; only append requests.",
};

pub const S4: Help = Help {
    code: "S4",
    cause: "Its worker doesn't count, or its key goes to another, is too long, or comes too early.",
    cure: "Give the job of the run that was saved, and the savepoint as it was written.",
};

pub const S5: Help = Help {
    code: "S5",
    cause: "The file is shorter than it was when the savepoint was written.",
    cure: "Give the file that the stream wrote, or begin a new stream without `--resume`.",
};

pub const S6: Help = Help {
    code: "S6",
    cause: "The input leaves out payments that come after the savepoint, which is after this row.",
    cure: "Lower `--from` to this row at most, and send the payments behind it.",
};

pub const V1: Help = Help {
    code: "V1",
    cause: "This record isn't of the form of an audit of one run, or stands out of order.",
    cure: "Give the audit as it was written, with its job, and `--stream` if `stream` wrote it.",
};

pub const V2: Help = Help {
    code: "V2",
    cause: "The audit has other refused requests than the request file. This record differs first.",
    cure: "Give the requests that were run, and `--ordered` if the run had it.",
};

pub const V3: Help = Help {
    code: "V3",
    cause: "The audit has other rows or requests than the files. This record differs first.",
    cure: "Give its files; `--live`, `--stream` or `--save SAVE` if `run` didn't write it.",
};

pub const V4: Help = Help {
    code: "V4",
    cause: "This worker's steps break the law of a worker: no worker of the engine does that.",
    cure: "Don't trust it: records are missing or changed, or another command wrote it.",
};

pub const V5: Help = Help {
    code: "V5",
    cause: "What came by this lane isn't what was sent on it.",
    cure: "Don't trust it: records are missing or changed, or another command wrote it.",
};

pub const V6: Help = Help {
    code: "V6",
    cause: "This worker's counts aren't those that its steps make.",
    cure: "Don't trust it: records are missing or changed, or another command wrote it.",
};

pub const V7: Help = Help {
    code: "V7",
    cause: "The alerts aren't those of the run that the audit tells. This line differs first.",
    cure: "Don't trust the alerts file: it is of another run, was cut, or was changed.",
};

pub const V8: Help = Help {
    code: "V8",
    cause: "This part of the stream is no run by itself: its rows hadn't all come to their ends.",
    cure: "Don't trust it: records are missing, changed or moved from one part to another.",
};

pub const Q1: Help = Help {
    code: "Q1",
    cause: "The change names no node of the job.",
    cure: "Correct the name.",
};

pub const Q2: Help = Help {
    code: "Q2",
    cause: "The change names a source, a sink or a replicate, which never change.",
    cure: "Remove the change.",
};

pub const Q3: Help = Help {
    code: "Q3",
    cause: "An earlier change of this request names the same node.",
    cure: "Keep one of the two.",
};

pub const Q4: Help = Help {
    code: "Q4",
    cause: "The change was written for another version of its node than the one in force.",
    cure: "See what the accepted requests before it changed, and then correct `from`.",
};

pub const Q5: Help = Help {
    code: "Q5",
    cause: "The new function doesn't fit the job: a column, a table, a test or a literal.",
    cure: "Check each name against the job, and each literal against its column's kind.",
};

pub const Q6: Help = Help {
    code: "Q6",
    cause: "The node can't become this kind, count by this key, or make so many pieces.",
    cure: "Keep the kind and the key, or raise the node's `roof` in the job file.",
};

pub const Q7: Help = Help {
    code: "Q7",
    cause: "The carry stands at a node that isn't a count, or it divides by less than 1.",
    cure: "Remove the carry, or write a divisor of at least 1.",
};

pub const Q8: Help = Help {
    code: "Q8",
    cause: "The request has no change.",
    cure: "Add a change, or remove the request.",
};

pub const Q9: Help = Help {
    code: "Q9",
    cause: "The request is for an earlier row than an accepted one before it.",
    cure: "Put the requests in the order of `after`.",
};

pub const Q10: Help = Help {
    code: "Q10",
    cause: "A stream settles at its start which nodes may be splits, and this one may not.",
    cure: "Make it a split in the job file, or raise its `roof` there, and begin a new stream.",
};

pub const READ: Help = Help {
    code: "5",
    cause: "The file couldn't be read.",
    cure: "Check its name, and that you may read it.",
};

pub const READ_ASKS: Help = Help {
    code: "5 asks",
    cause: "The input of releases couldn't be read on; later requests came after the last row.",
    cure: "Keep the input open, or redirect a file or `/dev/null` to it.",
};

pub const WRITE: Help = Help {
    code: "6",
    cause: "The file couldn't be made or written; it is as before, unless a stream appends to it.",
    cure: "Check its folder, that you may write there, and that the disk has room.",
};

pub const OUT: Help = Help {
    code: "6 out",
    cause: "The standard output couldn't be written; files that the command makes are whole.",
    cure: "Keep the reader of the output open, or send the output to a file.",
};

pub const MEMORY: Help = Help {
    code: "7",
    cause: "Memory ran out.",
    cure: "Run fewer rows at a time, or give the program more memory.",
};

pub const REFUSED: Help = Help {
    code: "8",
    cause: "Requests were refused: nothing of them is done, and all others are.",
    cure: "Correct or remove each request that is named here.",
};

pub const LONG: Help = Help {
    code: "9",
    cause: "The file is longer than the program reads.",
    cure: "Shorten it.",
};

pub const LONG_PAYMENTS: Help = Help {
    code: "9 payments",
    cause: "The file is longer than the program reads.",
    cure: "Cut it into several files, for several runs: docs/SAVEPOINTS.md, Long files.",
};

pub const LONG_SAVE: Help = Help {
    code: "9 save",
    cause: "The savepoint is longer than the program reads.",
    cure: "Save after fewer rows, before there are so many counts, or run the job in one part.",
};

pub const LONG_AUDIT: Help = Help {
    code: "9 audit",
    cause: "The audit is longer than any that `run` writes.",
    cure: "Give the file that `fries run` wrote.",
};

pub const LONG_ALERTS: Help = Help {
    code: "9 alerts",
    cause: "The alerts file is longer than any that `run` writes.",
    cure: "Give the file that `fries run` wrote.",
};
