ghost use Rattle.std.specs.Prelude.{◌≡◌, Some};
ghost use Rattle.jobs.specs.FaultWords.{which_words};

use std::fmt;

/// What has a name of its own.
#[derive(Clone, Copy, Debug, PartialEq, Eq)]
pub enum Named {
    Node,
    Column,
}

/// What has a limit. Requests, changes and `after` are those of a request file.
#[derive(Clone, Copy, Debug, PartialEq, Eq)]
pub enum Which {
    Nodes,
    Edges,
    Workers,
    AllWorkers,
    Columns,
    Text,
    Entries,
    Conditions,
    Steps,
    Most,
    Roof,
    Requests,
    Changes,
    After,
}

impl fmt::Display for Which {
    ghost output = { λ which. Some (which_words which) };

    fn fmt<W: fmt::Write>(&self, f: &mut fmt::Formatter<W>) -> fmt::Result {
        f.write_str(which_word(*self))
    }
}

// The name of what has a limit.
fn which_word(which: Which) -> &'static str
    ensures { result.now ≡ which_words which }
{
    match which {
        Which::Nodes => "nodes",
        Which::Edges => "edges",
        Which::Workers => "workers",
        Which::AllWorkers => "allworkers",
        Which::Columns => "columns",
        Which::Text => "text",
        Which::Entries => "entries",
        Which::Conditions => "conditions",
        Which::Steps => "steps",
        Which::Most => "most",
        Which::Roof => "roof",
        Which::Requests => "requests",
        Which::Changes => "changes",
        Which::After => "after",
    }
}

/// Why the parts of a job make no lawful job, in the order in which the faults are looked for.
#[derive(Clone, Copy, Debug, PartialEq, Eq)]
pub enum LawFault {
    /// A count or a size is outside its limit; the number is the one that is.
    Limit(Which, i64),
    /// The column or node at this place has the name of an earlier one. Columns are looked at
    /// before nodes.
    NameTwice(Named, u32),
    /// The edge at this place has an end that is no node.
    NoSuchEnd(u32),
    /// The edges of this node aren't those of its kind, or two of them lead to one node.
    Ports(u32),
    /// The node lies on a cycle.
    Cycle(u32),
    /// A column that the function of this node names isn't there or doesn't fit.
    Column(u32),
    /// The table of this node isn't there.
    NoTable(u32),
    /// The weight of the job is above 1,024.
    Weight(u64),
    NoMemory,
}
