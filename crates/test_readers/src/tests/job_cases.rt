use super::reading::{Case, Text};
use job_file::{JobFault, Named, Part, Which};

/// A piece of a job file, and what the reader answers.
pub static CASES: &[Case] = &[
    (Text::File, "columns = [\n", Err(JobFault::NotToml)),
    (Text::File, "node = []\nnode = []\n", Err(JobFault::NotToml)),
    (Text::File, "", Err(JobFault::Shape(Part::Columns))),
    (
        Text::File,
        "columns = [\"who:text\"]\n",
        Err(JobFault::Shape(Part::Node)),
    ),
    (
        Text::File,
        "columns = [\"who:text\"]\nnode = [3]\n",
        Err(JobFault::Shape(Part::Node)),
    ),
    (
        Text::File,
        "columns = [\"who:text\"]\nnode = []\nedge = []\n",
        Err(JobFault::Limit(Which::Nodes, 0)),
    ),
    (
        Text::File,
        "columns = []\nnode = [{}]\n",
        Err(JobFault::Shape(Part::Name)),
    ),
    (
        Text::Columns,
        "columns = [\"who:text\", \"sum:cents\", \"risk:number:own\"]\n",
        Ok(()),
    ),
    (
        Text::Columns,
        "columns = [\"who:text\", \"aaaaaaaaaaaaaaaaaaaaaaaaaaaaaaaa:text:own\"]\n",
        Ok(()),
    ),
    (
        Text::Columns,
        "columns = [\"who:text\", \"aaaaaaaaaaaaaaaaaaaaaaaaaaaaaaaaa:text\"]\n",
        Err(JobFault::Shape(Part::Columns)),
    ),
    (
        Text::Columns,
        "columns = [\"who:text\", \"Sum:cents\"]\n",
        Err(JobFault::Shape(Part::Columns)),
    ),
    (
        Text::Columns,
        "columns = [\"who:text\", \":cents\"]\n",
        Err(JobFault::Shape(Part::Columns)),
    ),
    (
        Text::Columns,
        "columns = [\"who:text\", \"sum\"]\n",
        Err(JobFault::Shape(Part::Columns)),
    ),
    (
        Text::Columns,
        "columns = [\"who:text\", \"sum:number:own:own\"]\n",
        Err(JobFault::Shape(Part::Columns)),
    ),
    (
        Text::Columns,
        "columns = [\"who:text\", 3]\n",
        Err(JobFault::Shape(Part::Columns)),
    ),
    (
        Text::Columns,
        "columns = \"who:text\"\n",
        Err(JobFault::Shape(Part::Columns)),
    ),
    (Text::Columns, "", Err(JobFault::Shape(Part::Columns))),
    (
        Text::Columns,
        "columns = [\"who:text\"]\nmore = 1\n",
        Err(JobFault::Shape(Part::Unknown)),
    ),
    (
        Text::Columns,
        "columns = [\"who:text\"]\ntables = 1\n",
        Err(JobFault::Shape(Part::Tables)),
    ),
    (
        Text::Columns,
        "columns = [\"who:text\"]\n[tables]\nknown = 1\n",
        Err(JobFault::Shape(Part::Tables)),
    ),
    (
        Text::Columns,
        "columns = [\"who:text\"]\n[tables.Known]\n",
        Err(JobFault::Shape(Part::Tables)),
    ),
    (
        Text::Columns,
        "columns = [\"who:text\"]\n[tables.known]\nann = 1.5\n",
        Err(JobFault::Shape(Part::Tables)),
    ),
    (
        Text::Columns,
        "columns = [\"who:text\"]\n[tables.aaaaaaaaaaaaaaaaaaaaaaaaaaaaaaaa]\ntttttttttttttttttttttttttttttttttttttttttttttttt = \"tttttttttttttttttttttttttttttttttttttttttttttttt\"\n",
        Ok(()),
    ),
    (
        Text::Columns,
        "columns = [\"who:text\"]\n[tables.aaaaaaaaaaaaaaaaaaaaaaaaaaaaaaaaa]\n",
        Err(JobFault::Shape(Part::Tables)),
    ),
    (
        Text::Columns,
        "columns = [\"who:text\"]\n[tables.known]\nttttttttttttttttttttttttttttttttttttttttttttttttt = 1\n",
        Err(JobFault::Limit(Which::Text, 49)),
    ),
    (
        Text::Columns,
        "columns = [\"who:text\"]\n[tables.known]\nann = \"ttttttttttttttttttttttttttttttttttttttttttttttttt\"\n",
        Err(JobFault::Limit(Which::Text, 49)),
    ),
    (
        Text::Columns,
        "columns = []\n",
        Err(JobFault::Limit(Which::Columns, 0)),
    ),
    (
        Text::Columns,
        "columns = [\"who:text\",\"a:text\",\"b:text\",\"c:text\",\"d:text\",\"e:text\",\"f:text\",\"g:text\",\"h:text\",\"i:text\",\"j:text\",\"k:text\"]\n",
        Ok(()),
    ),
    (
        Text::Columns,
        "columns = [\"who:text\",\"a:text\",\"b:text\",\"c:text\",\"d:text\",\"e:text\",\"f:text\",\"g:text\",\"h:text\",\"i:text\",\"j:text\",\"k:text\",\"l:text\"]\n",
        Err(JobFault::Limit(Which::Columns, 13)),
    ),
    (
        Text::Columns,
        "columns = [\"who:text\", \"sum:text\", \"who:cents\"]\n",
        Err(JobFault::NameTwice(Named::Column, 2)),
    ),
    (
        Text::Columns,
        "columns = [\"sum:cents\"]\n",
        Err(JobFault::Column(2)),
    ),
    (Text::Name, "aaaaaaaaaaaaaaaaaaaaaaaaaaaaaaaa", Ok(())),
    (
        Text::Name,
        "aaaaaaaaaaaaaaaaaaaaaaaaaaaaaaaaa",
        Err(JobFault::Shape(Part::Name)),
    ),
    (Text::Name, "", Err(JobFault::Shape(Part::Name))),
    (Text::Name, "X", Err(JobFault::Shape(Part::Name))),
    (Text::Name, "x_9", Ok(())),
    (Text::Name, "in", Err(JobFault::NameTwice(Named::Node, 1))),
    (
        Text::Edges,
        "[[edge]]\nfrom = \"in\"\nto = \"out\"\nport = 0\n",
        Ok(()),
    ),
    (Text::Edges, "", Err(JobFault::Ports(0))),
    (
        Text::Edges,
        "[[edge]]\nfrom = \"in\"\nto = \"out\"\nport = 1\n",
        Err(JobFault::Ports(0)),
    ),
    (
        Text::Edges,
        "[[edge]]\nfrom = \"in\"\nto = \"out\"\nport = 5000000000\n",
        Err(JobFault::Ports(0)),
    ),
    (
        Text::Edges,
        "[[edge]]\nfrom = \"in\"\nto = \"out\"\nport = -1\n",
        Err(JobFault::Shape(Part::Port)),
    ),
    (
        Text::Edges,
        "[[edge]]\nto = \"out\"\n",
        Err(JobFault::Shape(Part::From)),
    ),
    (
        Text::Edges,
        "[[edge]]\nfrom = \"in\"\nto = 1\n",
        Err(JobFault::Shape(Part::To)),
    ),
    (
        Text::Edges,
        "[[edge]]\nfrom = \"in\"\nto = \"out\"\nname = \"e\"\n",
        Err(JobFault::Shape(Part::Unknown)),
    ),
    (
        Text::Edges,
        "[edge]\nfrom = \"in\"\nto = \"out\"\n",
        Err(JobFault::Shape(Part::Edge)),
    ),
    (
        Text::Edges,
        "[[edge]]\nfrom = \"in\"\nto = \"out\"\n[[edge]]\nfrom = \"in\"\nto = \"Out\"\n",
        Err(JobFault::NoSuchEnd(1)),
    ),
    (
        Text::Edges,
        "[[edge]]\nfrom = \"none\"\nto = \"out\"\n",
        Err(JobFault::NoSuchEnd(0)),
    ),
    (
        Text::Edges,
        "[[node]]\nname = \"a\"\nkind = \"filter\"\nwhen = []\n[[node]]\nname = \"b\"\nkind = \"filter\"\nwhen = [[\"no\", \"=\", 1]]\n[[edge]]\nfrom = \"in\"\nto = \"a\"\n[[edge]]\nfrom = \"a\"\nto = \"b\"\n[[edge]]\nfrom = \"b\"\nto = \"out\"\n[[edge]]\nfrom = \"b\"\nto = \"a\"\nport = 1\n",
        Err(JobFault::Cycle(2)),
    ),
];
