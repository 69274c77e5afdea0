use super::requesting::{Asked, RequestText};
use job_file::{Part, ReqFileFault, Which};

/// A piece of a request file, and how many requests the reader answers.
pub static CASES: &[(RequestText, &'static str, Asked)] = &[
    (RequestText::File, "", Ok(0)),
    (RequestText::File, "request = []\n", Ok(0)),
    (
        RequestText::File,
        "request = [\n",
        Err(ReqFileFault::NotToml),
    ),
    (
        RequestText::File,
        "request = 3\n",
        Err(ReqFileFault::Shape(Part::Request)),
    ),
    (
        RequestText::File,
        "request = [3]\n",
        Err(ReqFileFault::Shape(Part::Request)),
    ),
    (
        RequestText::File,
        "requests = []\n",
        Err(ReqFileFault::Shape(Part::Unknown)),
    ),
    (
        RequestText::File,
        "[[request]]\nchange = []\n",
        Err(ReqFileFault::Shape(Part::After)),
    ),
    (
        RequestText::File,
        "[[request]]\nafter = \"4\"\n",
        Err(ReqFileFault::Shape(Part::After)),
    ),
    (
        RequestText::File,
        "[[request]]\nafter = 4\nrow = 3\n",
        Err(ReqFileFault::Shape(Part::Unknown)),
    ),
    (
        RequestText::File,
        "[[request]]\nafter = 4\nchange = 3\n",
        Err(ReqFileFault::Shape(Part::Change)),
    ),
    (
        RequestText::File,
        "[[request]]\nafter = 4\nchange = [3]\n",
        Err(ReqFileFault::Shape(Part::Change)),
    ),
    (
        RequestText::File,
        "[[request]]\nafter = 0\n[[request]]\nafter = 1048576\nchange = []\n",
        Ok(2),
    ),
    (
        RequestText::File,
        "[[request]]\nafter = 1048577\n",
        Err(ReqFileFault::Limit(Which::After, 1_048_577)),
    ),
    (
        RequestText::File,
        "[[request]]\nafter = -1\n",
        Err(ReqFileFault::Limit(Which::After, -1)),
    ),
    (
        RequestText::File,
        "[[request]]\nafter = 5000000000\n",
        Err(ReqFileFault::Limit(Which::After, 5_000_000_000)),
    ),
    (
        RequestText::Change,
        "node = \"big\"\nfrom = 0\nkind = \"filter\"\nwhen = []\n",
        Ok(1),
    ),
    (
        RequestText::Change,
        "node = \"nobody\"\nfrom = 7\nkind = \"map\"\nsteps = [[\"nothing\", \"add\", 1, 2]]\n",
        Ok(1),
    ),
    (
        RequestText::Change,
        "from = 0\nkind = \"source\"\n",
        Err(ReqFileFault::Shape(Part::Node)),
    ),
    (
        RequestText::Change,
        "node = \"big\"\nkind = \"source\"\n",
        Err(ReqFileFault::Shape(Part::From)),
    ),
    (
        RequestText::Change,
        "node = \"big\"\nfrom = -1\nkind = \"source\"\n",
        Err(ReqFileFault::Shape(Part::From)),
    ),
    (
        RequestText::Change,
        "node = \"big\"\nfrom = 0\n",
        Err(ReqFileFault::Shape(Part::Kind)),
    ),
    (
        RequestText::Change,
        "node = \"big\"\nfrom = 0\nkind = \"filter\"\n",
        Err(ReqFileFault::Shape(Part::When)),
    ),
    (
        RequestText::Change,
        "node = \"big\"\nfrom = 0\nkind = \"source\"\nworkers = 1\n",
        Err(ReqFileFault::Shape(Part::Unknown)),
    ),
    (
        RequestText::Change,
        "node = \"big\"\nfrom = 0\nkind = \"sink\"\ncolumns = []\nname = \"big\"\n",
        Err(ReqFileFault::Shape(Part::Unknown)),
    ),
    (
        RequestText::Change,
        "node = \"big\"\nfrom = 0\nkind = \"map\"\nsteps = []\nroof = 1\n",
        Err(ReqFileFault::Shape(Part::Unknown)),
    ),
    (
        RequestText::Change,
        "node = \"big\"\nfrom = 0\nkind = \"dedupe\"\nkey = \"nothing\"\n",
        Ok(1),
    ),
    (
        RequestText::Change,
        "node = \"big\"\nfrom = 0\nkind = \"dedupe\"\n",
        Err(ReqFileFault::Shape(Part::Key)),
    ),
    (
        RequestText::Change,
        "node = \"big\"\nfrom = 0\nkind = \"dedupe\"\nkey = \"account\"\nworkers = 2\n",
        Err(ReqFileFault::Shape(Part::Unknown)),
    ),
    (
        RequestText::Change,
        "node = \"big\"\nfrom = 0\nkind = \"clamp\"\non = \"nothing\"\nlow = 1\nhigh = 1\n",
        Ok(1),
    ),
    (
        RequestText::Change,
        "node = \"big\"\nfrom = 0\nkind = \"clamp\"\non = \"amount\"\nlow = 1.5\nhigh = 2\n",
        Err(ReqFileFault::Shape(Part::Low)),
    ),
    (
        RequestText::Change,
        "node = \"big\"\nfrom = 0\nkind = \"clamp\"\non = \"amount\"\nlow = 1\n",
        Err(ReqFileFault::Shape(Part::High)),
    ),
    (
        RequestText::Change,
        "node = \"big\"\nfrom = 0\nkind = \"clamp\"\non = \"amount\"\nlow = 2\nhigh = 1\n",
        Err(ReqFileFault::Shape(Part::High)),
    ),
    (
        RequestText::Change,
        "node = \"big\"\nfrom = 0\nkind = \"clamp\"\non = \"amount\"\nlow = 1\nhigh = 2\nroof = 1\n",
        Err(ReqFileFault::Shape(Part::Unknown)),
    ),
    (RequestText::Carry, "\"keep\"", Ok(1)),
    (RequestText::Carry, "\"reset\"", Ok(1)),
    (RequestText::Carry, "[\"scale\", -1, 0]", Ok(1)),
    (RequestText::Carry, "[\"below\", 3]", Ok(1)),
    (
        RequestText::Carry,
        "\"scale\"",
        Err(ReqFileFault::Shape(Part::Carry)),
    ),
    (
        RequestText::Carry,
        "[\"keep\"]",
        Err(ReqFileFault::Shape(Part::Carry)),
    ),
    (
        RequestText::Carry,
        "[\"scale\", 1]",
        Err(ReqFileFault::Shape(Part::Carry)),
    ),
    (
        RequestText::Carry,
        "[\"below\", 1, 2]",
        Err(ReqFileFault::Shape(Part::Carry)),
    ),
    (
        RequestText::Carry,
        "[\"scale\", 1, \"2\"]",
        Err(ReqFileFault::Shape(Part::Carry)),
    ),
    (
        RequestText::Carry,
        "3",
        Err(ReqFileFault::Shape(Part::Carry)),
    ),
    (
        RequestText::Change,
        "node = \"big\"\nfrom = 0\nkind = \"split\"\non = \"account\"\nby = \";\"\nmost = 17\n",
        Err(ReqFileFault::Limit(Which::Most, 17)),
    ),
    (
        RequestText::Change,
        "node = \"big\"\nfrom = 0\nkind = \"split\"\non = \"account\"\nby = \";\"\nmost = -5000000000\n",
        Err(ReqFileFault::Limit(Which::Most, -5_000_000_000)),
    ),
    (
        RequestText::Change,
        "node = \"big\"\nfrom = 0\nkind = \"filter\"\nwhen = [[\"account\", \"=\", \"ttttttttttttttttttttttttttttttttttttttttttttttttt\"]]\n",
        Err(ReqFileFault::Limit(Which::Text, 49)),
    ),
    (
        RequestText::Change,
        "node = \"big\"\nfrom = 0\nkind = \"filter\"\nwhen = [[\"amount\", \"=\", 1], [\"amount\", \"=\", 1], [\"amount\", \"=\", 1], [\"amount\", \"=\", 1], [\"amount\", \"=\", 1], [\"amount\", \"=\", 1], [\"amount\", \"=\", 1], [\"amount\", \"=\", 1], [\"amount\", \"=\", 1]]\n",
        Err(ReqFileFault::Limit(Which::Conditions, 9)),
    ),
    (
        RequestText::Change,
        "node = \"big\"\nfrom = 0\nkind = \"map\"\nsteps = [[\"amount\", \"add\", 1, 2], [\"amount\", \"add\", 1, 2], [\"amount\", \"add\", 1, 2], [\"amount\", \"add\", 1, 2], [\"amount\", \"add\", 1, 2], [\"amount\", \"add\", 1, 2], [\"amount\", \"add\", 1, 2], [\"amount\", \"add\", 1, 2], [\"amount\", \"add\", 1, 2]]\n",
        Err(ReqFileFault::Limit(Which::Steps, 9)),
    ),
    (
        RequestText::Change,
        "node = \"big\"\nfrom = 0\nkind = \"split\"\non = \"account\"\nby = \";\"\nmost = 17\n[[request]]\nafter = 0.5\n",
        Err(ReqFileFault::Shape(Part::After)),
    ),
    (
        RequestText::Change,
        "node = \"big\"\nfrom = 0\nkind = \"split\"\non = \"account\"\nby = \";\"\nmost = 17\n[[request]]\nafter = -2\n",
        Err(ReqFileFault::Limit(Which::After, -2)),
    ),
];
