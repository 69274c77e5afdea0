use super::reading::{Case, Text};
use job_file::{JobFault, Named, Part, Which};

/// The function of a node between a source and one sink or two, and what the reader answers.
pub static CASES: &[Case] = &[
    (Text::Func, "when = []\n", Err(JobFault::Shape(Part::Kind))),
    (
        Text::Func,
        "kind = \"filters\"\nwhen = []\n",
        Err(JobFault::Shape(Part::Kind)),
    ),
    (
        Text::Func,
        "kind = \"filter\"\n",
        Err(JobFault::Shape(Part::When)),
    ),
    (
        Text::Func,
        "kind = \"filter\"\nwhen = [[\"who\", \"=\"]]\n",
        Err(JobFault::Shape(Part::When)),
    ),
    (
        Text::Func,
        "kind = \"filter\"\nwhen = [[\"who\", \"==\", \"ann\"]]\n",
        Err(JobFault::Shape(Part::When)),
    ),
    (
        Text::Func,
        "kind = \"filter\"\nwhen = [[\"sum\", \"<\", 1.5]]\n",
        Err(JobFault::Shape(Part::When)),
    ),
    (
        Text::Func,
        "kind = \"filter\"\nwhen = []\nsteps = []\n",
        Err(JobFault::Shape(Part::Unknown)),
    ),
    (
        Text::Func,
        "kind = \"filter\"\nwhen = [[\"who\", \"=\", \"a\"], [\"who\", \"=\", \"a\"], [\"who\", \"=\", \"a\"], [\"who\", \"=\", \"a\"], [\"who\", \"=\", \"a\"], [\"who\", \"=\", \"a\"], [\"who\", \"=\", \"a\"], [\"who\", \"=\", \"a\"]]\n",
        Ok(()),
    ),
    (
        Text::Func,
        "kind = \"filter\"\nwhen = [[\"who\", \"=\", \"a\"], [\"who\", \"=\", \"a\"], [\"who\", \"=\", \"a\"], [\"who\", \"=\", \"a\"], [\"who\", \"=\", \"a\"], [\"who\", \"=\", \"a\"], [\"who\", \"=\", \"a\"], [\"who\", \"=\", \"a\"], [\"sum\", \"<\", 1]]\n",
        Err(JobFault::Limit(Which::Conditions, 9)),
    ),
    (
        Text::Func,
        "kind = \"filter\"\nwhen = [[\"who\", \"!=\", \"tttttttttttttttttttttttttttttttttttttttttttttttt\"]]\n",
        Ok(()),
    ),
    (
        Text::Func,
        "kind = \"filter\"\nwhen = [[\"who\", \"!=\", \"ttttttttttttttttttttttttttttttttttttttttttttttttt\"]]\n",
        Err(JobFault::Limit(Which::Text, 49)),
    ),
    (
        Text::Func,
        "kind = \"filter\"\nwhen = [[\"who\", \"<\", \"ann\"]]\n",
        Err(JobFault::Column(1)),
    ),
    (
        Text::Func,
        "kind = \"filter\"\nwhen = [[\"whom\", \"=\", \"ann\"]]\n",
        Err(JobFault::Column(1)),
    ),
    (
        Text::Func,
        "kind = \"map\"\n",
        Err(JobFault::Shape(Part::Steps)),
    ),
    (
        Text::Func,
        "kind = \"map\"\nsteps = [[\"sum\", \"add\", 1]]\n",
        Err(JobFault::Shape(Part::Steps)),
    ),
    (
        Text::Func,
        "kind = \"map\"\nsteps = [[\"sum\", \"div\", 1, 2]]\n",
        Err(JobFault::Shape(Part::Steps)),
    ),
    (
        Text::Func,
        "kind = \"map\"\nsteps = [[\"sum\", \"add\", 1, []]]\n",
        Err(JobFault::Shape(Part::Steps)),
    ),
    (
        Text::Func,
        "kind = \"map\"\nsteps = [[\"sum\", \"add\", 1, \"risk\"], [\"sum\", \"add\", 1, \"risk\"], [\"sum\", \"add\", 1, \"risk\"], [\"sum\", \"add\", 1, \"risk\"], [\"sum\", \"add\", 1, \"risk\"], [\"sum\", \"add\", 1, \"risk\"], [\"sum\", \"add\", 1, \"risk\"], [\"sum\", \"max\", \"sum\", 2]]\n",
        Ok(()),
    ),
    (
        Text::Func,
        "kind = \"map\"\nsteps = [[\"sum\", \"add\", 1, \"risk\"], [\"sum\", \"add\", 1, \"risk\"], [\"sum\", \"add\", 1, \"risk\"], [\"sum\", \"add\", 1, \"risk\"], [\"sum\", \"add\", 1, \"risk\"], [\"sum\", \"add\", 1, \"risk\"], [\"sum\", \"add\", 1, \"risk\"], [\"sum\", \"max\", \"sum\", 2], [\"sum\", \"min\", 1, 2]]\n",
        Err(JobFault::Limit(Which::Steps, 9)),
    ),
    (
        Text::Func,
        "kind = \"map\"\nsteps = [[\"sum\", \"mul\", \"who\", 2]]\n",
        Err(JobFault::Column(1)),
    ),
    (
        Text::Func,
        "kind = \"enrich\"\nkey = \"who\"\ninto = \"risk\"\ntable = \"known\"\nother = 0\n",
        Ok(()),
    ),
    (
        Text::Func,
        "kind = \"enrich\"\ninto = \"risk\"\ntable = \"known\"\nother = 0\n",
        Err(JobFault::Shape(Part::Key)),
    ),
    (
        Text::Func,
        "kind = \"enrich\"\nkey = \"who\"\ninto = 3\ntable = \"known\"\nother = 0\n",
        Err(JobFault::Shape(Part::Into)),
    ),
    (
        Text::Func,
        "kind = \"enrich\"\nkey = \"who\"\ninto = \"risk\"\nother = 0\n",
        Err(JobFault::Shape(Part::Table)),
    ),
    (
        Text::Func,
        "kind = \"enrich\"\nkey = \"who\"\ninto = \"risk\"\ntable = \"known\"\n",
        Err(JobFault::Shape(Part::Other)),
    ),
    (
        Text::Func,
        "kind = \"enrich\"\nkey = \"who\"\ninto = \"who\"\ntable = \"none\"\nother = \"ttttttttttttttttttttttttttttttttttttttttttttttttt\"\n",
        Err(JobFault::Limit(Which::Text, 49)),
    ),
    (
        Text::Func,
        "kind = \"enrich\"\nkey = \"who\"\ninto = \"who\"\ntable = \"known\"\nother = \"a\"\n",
        Err(JobFault::Column(1)),
    ),
    (
        Text::Func,
        "kind = \"enrich\"\nkey = \"who\"\ninto = \"risk\"\ntable = \"Known\"\nother = 0\n",
        Err(JobFault::NoTable(1)),
    ),
    (
        Text::Func,
        "kind = \"enrich\"\nkey = \"who\"\ninto = \"sum\"\ntable = \"known\"\nother = 0\n",
        Ok(()),
    ),
    // A column that isn't there comes before a table that isn't.
    (
        Text::Func,
        "kind = \"enrich\"\nkey = \"who\"\ninto = \"none\"\ntable = \"none\"\nother = 0\n",
        Err(JobFault::Column(1)),
    ),
    // An `other` that is a text, for a column of numbers.
    (
        Text::Func,
        "kind = \"enrich\"\nkey = \"who\"\ninto = \"risk\"\ntable = \"known\"\nother = \"\"\n",
        Err(JobFault::Column(1)),
    ),
    (
        Text::Func,
        "kind = \"count\"\nkey = \"who\"\nadd = \"sum\"\ninto = \"risk\"\n",
        Ok(()),
    ),
    (
        Text::Func,
        "kind = \"count\"\nkey = \"who\"\nadd = 1.5\ninto = \"risk\"\n",
        Err(JobFault::Shape(Part::Add)),
    ),
    (
        Text::Func,
        "kind = \"count\"\nkey = \"who\"\nadd = 1\ninto = \"who\"\n",
        Err(JobFault::Column(1)),
    ),
    (
        Text::Func,
        "kind = \"split\"\non = \"who\"\nby = \";\"\nmost = 16\n",
        Ok(()),
    ),
    (
        Text::Func,
        "kind = \"split\"\nby = \";\"\nmost = 16\n",
        Err(JobFault::Shape(Part::On)),
    ),
    (
        Text::Func,
        "kind = \"split\"\non = \"who\"\nby = \";;\"\nmost = 16\n",
        Err(JobFault::Shape(Part::By)),
    ),
    (
        Text::Func,
        "kind = \"split\"\non = \"who\"\nby = \"é\"\nmost = 16\n",
        Err(JobFault::Shape(Part::By)),
    ),
    (
        Text::Func,
        "kind = \"split\"\non = \"who\"\nby = \"\"\nmost = 16\n",
        Err(JobFault::Shape(Part::By)),
    ),
    (
        Text::Func,
        "kind = \"split\"\non = \"who\"\nby = \";\"\nmost = \"2\"\n",
        Err(JobFault::Shape(Part::Most)),
    ),
    (
        Text::Func,
        "kind = \"split\"\non = \"who\"\nby = \";\"\nmost = 0\n",
        Err(JobFault::Limit(Which::Most, 0)),
    ),
    (
        Text::Func,
        "kind = \"split\"\non = \"who\"\nby = \";\"\nmost = 17\n",
        Err(JobFault::Limit(Which::Most, 17)),
    ),
    (
        Text::Func,
        "kind = \"split\"\non = \"who\"\nby = \";\"\nmost = -1\n",
        Err(JobFault::Limit(Which::Most, -1)),
    ),
    (
        Text::Func,
        "kind = \"split\"\non = \"who\"\nby = \";\"\nmost = 5000000000\n",
        Err(JobFault::Limit(Which::Most, 5_000_000_000)),
    ),
    (
        Text::Func,
        "kind = \"replicate\"\n",
        Err(JobFault::Ports(1)),
    ),
    (
        Text::Func,
        "kind = \"source\"\nworkers = 1\n",
        Err(JobFault::Shape(Part::Unknown)),
    ),
    (
        Text::Func,
        "kind = \"sink\"\n",
        Err(JobFault::Shape(Part::Columns)),
    ),
    (
        Text::Func,
        "kind = \"sink\"\ncolumns = [3]\n",
        Err(JobFault::Shape(Part::Columns)),
    ),
    (
        Text::Func,
        "kind = \"filter\"\nwhen = []\nworkers = 8\n",
        Ok(()),
    ),
    (
        Text::Func,
        "kind = \"filter\"\nwhen = []\nworkers = 9\n",
        Err(JobFault::Limit(Which::Workers, 9)),
    ),
    (
        Text::Func,
        "kind = \"filter\"\nwhen = []\nworkers = 0\n",
        Err(JobFault::Limit(Which::Workers, 0)),
    ),
    (
        Text::Func,
        "kind = \"filter\"\nwhen = []\nworkers = \"2\"\n",
        Err(JobFault::Shape(Part::Workers)),
    ),
    (
        Text::Func,
        "kind = \"filter\"\nwhen = []\nworkers = 4294967296\n",
        Err(JobFault::Limit(Which::Workers, 4_294_967_296)),
    ),
    (
        Text::Func,
        "kind = \"filter\"\nwhen = []\nworkers = 9\n[[edge]]\nfrom = \"in\"\n",
        Err(JobFault::Shape(Part::To)),
    ),
    (
        Text::Func,
        "kind = \"filter\"\nwhen = []\nworkers = 9\n[[node]]\nname = \"x\"\nkind = \"split\"\non = \"who\"\nby = \";\"\nmost = 4294967296\n",
        Err(JobFault::Limit(Which::Most, 4_294_967_296)),
    ),
    (
        Text::Func,
        "kind = \"filter\"\nwhen = []\nworkers = 9\n[[node]]\nname = \"x\"\nkind = \"replicate\"\n",
        Err(JobFault::Limit(Which::Workers, 9)),
    ),
    (
        Text::Func,
        "kind = \"filter\"\nwhen = []\n[[node]]\nname = \"x\"\nkind = \"replicate\"\n[[edge]]\nfrom = \"y\"\nto = \"x\"\n",
        Err(JobFault::NameTwice(Named::Node, 2)),
    ),
    (
        Text::Func,
        "kind = \"filter\"\nwhen = []\nroof = 16\n",
        Ok(()),
    ),
    (
        Text::Func,
        "kind = \"filter\"\nwhen = []\nroof = 17\n",
        Err(JobFault::Limit(Which::Roof, 17)),
    ),
    (
        Text::Func,
        "kind = \"map\"\nsteps = []\nroof = 0\n",
        Err(JobFault::Limit(Which::Roof, 0)),
    ),
    (
        Text::Func,
        "kind = \"map\"\nsteps = []\nroof = -1\n",
        Err(JobFault::Limit(Which::Roof, -1)),
    ),
    (
        Text::Func,
        "kind = \"map\"\nsteps = []\nroof = 5000000000\n",
        Err(JobFault::Limit(Which::Roof, 5_000_000_000)),
    ),
    (
        Text::Func,
        "kind = \"map\"\nsteps = []\nroof = \"2\"\n",
        Err(JobFault::Shape(Part::Roof)),
    ),
    (
        Text::Func,
        "kind = \"enrich\"\nkey = \"who\"\ninto = \"risk\"\ntable = \"known\"\nother = 0\nroof = 16\n",
        Ok(()),
    ),
    (
        Text::Func,
        "kind = \"split\"\non = \"who\"\nby = \";\"\nmost = 3\nroof = 3\n",
        Ok(()),
    ),
    (
        Text::Func,
        "kind = \"split\"\non = \"who\"\nby = \";\"\nmost = 3\nroof = 2\n",
        Err(JobFault::Limit(Which::Roof, 2)),
    ),
    (
        Text::Func,
        "kind = \"split\"\non = \"who\"\nby = \";\"\nmost = 17\nroof = 16\n",
        Err(JobFault::Limit(Which::Most, 17)),
    ),
    (
        Text::Func,
        "kind = \"count\"\nkey = \"who\"\nadd = 1\ninto = \"risk\"\nroof = 1\n",
        Err(JobFault::Shape(Part::Unknown)),
    ),
    (
        Text::Func,
        "kind = \"replicate\"\nroof = 1\n",
        Err(JobFault::Shape(Part::Unknown)),
    ),
    (
        Text::Func,
        "kind = \"sink\"\ncolumns = []\nroof = 1\n",
        Err(JobFault::Shape(Part::Unknown)),
    ),
    // A filter that two edges leave has roof 1, whatever else is wrong with the edges.
    (Text::TwoWays, "kind = \"filter\"\nwhen = []\n", Ok(())),
    (
        Text::TwoWays,
        "kind = \"filter\"\nwhen = []\nroof = 1\n",
        Ok(()),
    ),
    (
        Text::TwoWays,
        "kind = \"filter\"\nwhen = []\nroof = 2\n",
        Err(JobFault::Limit(Which::Roof, 2)),
    ),
    (
        Text::Func,
        "kind = \"filter\"\nwhen = []\nroof = 2\n[[edge]]\nfrom = \"x\"\nto = \"nobody\"\n",
        Err(JobFault::Limit(Which::Roof, 2)),
    ),
    // So has a second filter of that name, since edges are counted by the name.
    (
        Text::TwoWays,
        "kind = \"filter\"\nwhen = []\n[[node]]\nname = \"x\"\nkind = \"filter\"\nwhen = []\nroof = 2\n",
        Err(JobFault::Limit(Which::Roof, 2)),
    ),
    (
        Text::TwoWays,
        "kind = \"map\"\nsteps = []\nroof = 2\n",
        Err(JobFault::Ports(1)),
    ),
];
