use super::reading::{Case, Text};
use job_file::JobFault;

/// A source, a filter and two sinks, and the edge into the filter.
pub const NODES: &str =
    "[[node]]\nname = \"in\"\nkind = \"source\"\n[[node]]\nname = \"x\"\nkind = \"filter\"\nwhen = []\n[[node]]\nname = \"out\"\nkind = \"sink\"\ncolumns = []\n[[node]]\nname = \"log\"\nkind = \"sink\"\ncolumns = []\n[[edge]]\nfrom = \"in\"\nto = \"x\"\n";

/// The other edges of the job, and what the reader answers.
pub static CASES: &[Case] = &[
    (
        Text::Ways,
        "[[edge]]\nfrom = \"x\"\nto = \"out\"\n[[edge]]\nfrom = \"x\"\nto = \"log\"\nport = 1\n",
        Ok(()),
    ),
    (
        Text::Ways,
        "[[edge]]\nfrom = \"x\"\nto = \"nobody\"\n",
        Err(JobFault::NoSuchEnd(1)),
    ),
    // A source with an edge in.
    (
        Text::Ways,
        "[[edge]]\nfrom = \"x\"\nto = \"in\"\n",
        Err(JobFault::Ports(0)),
    ),
    // A filter with no edge out, with one on port 1, with two on one port, and with both to one
    // node.
    (Text::Ways, "", Err(JobFault::Ports(1))),
    (
        Text::Ways,
        "[[edge]]\nfrom = \"x\"\nto = \"out\"\nport = 1\n",
        Err(JobFault::Ports(1)),
    ),
    (
        Text::Ways,
        "[[edge]]\nfrom = \"x\"\nto = \"out\"\n[[edge]]\nfrom = \"x\"\nto = \"log\"\n",
        Err(JobFault::Ports(1)),
    ),
    (
        Text::Ways,
        "[[edge]]\nfrom = \"x\"\nto = \"out\"\n[[edge]]\nfrom = \"x\"\nto = \"out\"\nport = 1\n",
        Err(JobFault::Ports(1)),
    ),
    // A sink with no edge in.
    (
        Text::Ways,
        "[[edge]]\nfrom = \"x\"\nto = \"out\"\n",
        Err(JobFault::Ports(3)),
    ),
];
