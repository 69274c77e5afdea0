use versions::QFault;

/// The changes of a request, and the fault for which it is refused.
pub type Case = (&'static str, Option<QFault>);

/// Two requests of a change each. The second is a second change of version 0.
pub const EARLIER: &str = r#"[[request]]
after = 5
[[request.change]]
node = "big"
from = 0
kind = "filter"
when = [["sum", ">=", 50]]
[[request]]
after = 9
[[request.change]]
node = "big"
from = 0
kind = "filter"
when = [["sum", ">=", 10]]
"#;

/// Two requests more. The second is for an earlier row than the first.
pub const LATER: &str = r#"[[request]]
after = 7
[[request.change]]
node = "big"
from = 1
kind = "filter"
when = [["sum", ">=", 10]]
[[request]]
after = 6
[[request.change]]
node = "tally"
from = 0
kind = "count"
key = "who"
add = 1
into = "sum"
carry = "reset"
"#;

/// Two requests that make splits: of node 1, and of node 2.
pub const TWO_SPLITS: &str = r#"[[request]]
after = 0
[[request.change]]
node = "u"
from = 0
kind = "split"
on = "tags"
by = ";"
most = 3
[[request]]
after = 0
[[request.change]]
node = "m"
from = 0
kind = "split"
on = "tags"
by = ";"
most = 1
"#;

/// Changes of the chain.
pub static OF_THE_CHAIN: &[Case] = &[
    (
        "[[request.change]]\nnode = \"big\"\nfrom = 0\nkind = \"split\"\non = \"tags\"\nby = \";\"\nmost = 2\n",
        Some(QFault::KindOrKey(1)),
    ),
    (
        "[[request.change]]\nnode = \"big\"\nfrom = 0\nkind = \"split\"\non = \"tags\"\nby = \";\"\nmost = 1\n",
        None,
    ),
];

/// Changes of the job with a node of each kind.
pub static OF_KINDS: &[Case] = &[
    (
        "[[request.change]]\nnode = \"nobody\"\nfrom = 0\nkind = \"filter\"\nwhen = [[\"sum\", \">=\", 5]]\n",
        Some(QFault::NoNode(1)),
    ),
    (
        "[[request.change]]\nnode = \"card\"\nfrom = 0\nkind = \"source\"\n",
        Some(QFault::Fixed(1)),
    ),
    (
        "[[request.change]]\nnode = \"both\"\nfrom = 0\nkind = \"replicate\"\n",
        Some(QFault::Fixed(1)),
    ),
    (
        "[[request.change]]\nnode = \"out\"\nfrom = 0\nkind = \"sink\"\ncolumns = []\n",
        Some(QFault::Fixed(1)),
    ),
    (
        "[[request.change]]\nnode = \"big\"\nfrom = 1\nkind = \"filter\"\nwhen = [[\"sum\", \">=\", 5]]\n",
        Some(QFault::Stale(1, 0)),
    ),
    (
        "[[request.change]]\nnode = \"big\"\nfrom = 0\nkind = \"filter\"\nwhen = [[\"none\", \">=\", 5]]\n",
        Some(QFault::IllTyped(1)),
    ),
    (
        "[[request.change]]\nnode = \"big\"\nfrom = 0\nkind = \"split\"\non = \"tags\"\nby = \";\"\nmost = 2\n",
        Some(QFault::KindOrKey(1)),
    ),
    (
        "[[request.change]]\nnode = \"big\"\nfrom = 0\nkind = \"split\"\non = \"tags\"\nby = \";\"\nmost = 1\n",
        None,
    ),
    (
        "[[request.change]]\nnode = \"big\"\nfrom = 0\nkind = \"map\"\nsteps = []\n",
        None,
    ),
    (
        "[[request.change]]\nnode = \"big\"\nfrom = 0\nkind = \"enrich\"\nkey = \"who\"\ninto = \"sum\"\ntable = \"known\"\nother = 0\n",
        None,
    ),
    (
        "[[request.change]]\nnode = \"pieces\"\nfrom = 0\nkind = \"split\"\non = \"tags\"\nby = \";\"\nmost = 4\n",
        None,
    ),
    (
        "[[request.change]]\nnode = \"pieces\"\nfrom = 0\nkind = \"split\"\non = \"tags\"\nby = \";\"\nmost = 5\n",
        Some(QFault::KindOrKey(1)),
    ),
    (
        "[[request.change]]\nnode = \"pieces\"\nfrom = 0\nkind = \"filter\"\nwhen = [[\"sum\", \">=\", 5]]\n",
        None,
    ),
    (
        "[[request.change]]\nnode = \"tally\"\nfrom = 0\nkind = \"map\"\nsteps = []\n",
        Some(QFault::KindOrKey(1)),
    ),
    (
        "[[request.change]]\nnode = \"tally\"\nfrom = 0\nkind = \"count\"\nkey = \"tags\"\nadd = 1\ninto = \"sum\"\n",
        Some(QFault::KindOrKey(1)),
    ),
    (
        "[[request.change]]\nnode = \"add\"\nfrom = 0\nkind = \"count\"\nkey = \"who\"\nadd = 1\ninto = \"sum\"\n",
        Some(QFault::KindOrKey(1)),
    ),
    (
        "[[request.change]]\nnode = \"big\"\nfrom = 0\nkind = \"filter\"\nwhen = [[\"sum\", \">=\", 5]]\ncarry = \"reset\"\n",
        Some(QFault::BadCarry(1)),
    ),
    (
        "[[request.change]]\nnode = \"tally\"\nfrom = 0\nkind = \"count\"\nkey = \"who\"\nadd = 1\ninto = \"sum\"\ncarry = [\"scale\", 1, 0]\n",
        Some(QFault::BadCarry(1)),
    ),
    (
        "[[request.change]]\nnode = \"tally\"\nfrom = 0\nkind = \"count\"\nkey = \"who\"\nadd = 1\ninto = \"sum\"\ncarry = [\"scale\", 1, 1]\n",
        None,
    ),
    (
        "[[request.change]]\nnode = \"tally\"\nfrom = 0\nkind = \"count\"\nkey = \"who\"\nadd = 1\ninto = \"sum\"\ncarry = [\"below\", -1]\n",
        None,
    ),
    ("", Some(QFault::Empty)),
    (
        "[[request.change]]\nnode = \"big\"\nfrom = 0\nkind = \"filter\"\nwhen = [[\"sum\", \">=\", 5]]\n[[request.change]]\nnode = \"tally\"\nfrom = 0\nkind = \"count\"\nkey = \"who\"\nadd = 1\ninto = \"sum\"\n[[request.change]]\nnode = \"big\"\nfrom = 7\nkind = \"filter\"\nwhen = [[\"sum\", \">=\", 5]]\n",
        Some(QFault::NodeTwice(3)),
    ),
    (
        "[[request.change]]\nnode = \"big\"\nfrom = 7\nkind = \"filter\"\nwhen = [[\"sum\", \">=\", 5]]\n[[request.change]]\nnode = \"nobody\"\nfrom = 0\nkind = \"count\"\nkey = \"who\"\nadd = 1\ninto = \"sum\"\n",
        Some(QFault::NoNode(2)),
    ),
    (
        "[[request.change]]\nnode = \"tally\"\nfrom = 0\nkind = \"count\"\nkey = \"who\"\nadd = 1\ninto = \"sum\"\n[[request.change]]\nnode = \"big\"\nfrom = 0\nkind = \"count\"\nkey = \"who\"\nadd = 1\ninto = \"sum\"\ncarry = \"reset\"\n",
        Some(QFault::KindOrKey(2)),
    ),
];

/// Changes of the payments, where two edges leave `big`.
pub static OF_PAYMENTS: &[Case] = &[
    (
        "[[request.change]]\nnode = \"hot\"\nfrom = 0\nkind = \"map\"\nsteps = []\n",
        None,
    ),
    (
        "[[request.change]]\nnode = \"big\"\nfrom = 0\nkind = \"map\"\nsteps = []\n",
        Some(QFault::KindOrKey(1)),
    ),
    (
        "[[request.change]]\nnode = \"hot\"\nfrom = 0\nkind = \"clamp\"\non = \"seen\"\nlow = 0\nhigh = 9\n",
        None,
    ),
    (
        "[[request.change]]\nnode = \"big\"\nfrom = 0\nkind = \"clamp\"\non = \"seen\"\nlow = 0\nhigh = 9\n",
        Some(QFault::KindOrKey(1)),
    ),
    (
        "[[request.change]]\nnode = \"big\"\nfrom = 0\nkind = \"filter\"\nwhen = []\n",
        None,
    ),
];

/// Changes of the job with a roof.
pub static OF_THE_ROOF: &[Case] = &[
    (
        "[[request.change]]\nnode = \"u\"\nfrom = 0\nkind = \"split\"\non = \"tags\"\nby = \";\"\nmost = 3\n",
        None,
    ),
    (
        "[[request.change]]\nnode = \"u\"\nfrom = 0\nkind = \"split\"\non = \"tags\"\nby = \";\"\nmost = 4\n",
        Some(QFault::KindOrKey(1)),
    ),
    (
        "[[request.change]]\nnode = \"u\"\nfrom = 0\nkind = \"split\"\non = \"tags\"\nby = \";\"\nmost = 3\n[[request.change]]\nnode = \"m\"\nfrom = 0\nkind = \"filter\"\nwhen = []\n",
        None,
    ),
    (
        "[[request.change]]\nnode = \"m\"\nfrom = 0\nkind = \"split\"\non = \"tags\"\nby = \";\"\nmost = 1\n",
        None,
    ),
    (
        "[[request.change]]\nnode = \"m\"\nfrom = 0\nkind = \"split\"\non = \"tags\"\nby = \";\"\nmost = 2\n",
        Some(QFault::KindOrKey(1)),
    ),
];

/// Functions, and whether they fit the payments.
pub static FUNCTIONS: &[(&'static str, bool)] = &[
    (
        "kind = \"filter\"\nwhen = [[\"amount\", \">=\", 1]]\n",
        true,
    ),
    (
        "kind = \"filter\"\nwhen = [[\"merchant\", \">=\", 1]]\n",
        false,
    ),
    ("kind = \"filter\"\nwhen = [[\"none\", \">=\", 1]]\n", false),
    (
        "kind = \"filter\"\nwhen = [[\"account\", \"=\", \"\"]]\n",
        true,
    ),
    (
        "kind = \"filter\"\nwhen = [[\"account\", \"!=\", \"\"]]\n",
        true,
    ),
    (
        "kind = \"filter\"\nwhen = [[\"account\", \"<\", \"\"]]\n",
        false,
    ),
    (
        "kind = \"filter\"\nwhen = [[\"account\", \"<=\", \"\"]]\n",
        false,
    ),
    (
        "kind = \"filter\"\nwhen = [[\"account\", \">\", \"\"]]\n",
        false,
    ),
    (
        "kind = \"filter\"\nwhen = [[\"account\", \">=\", \"\"]]\n",
        false,
    ),
    (
        "kind = \"filter\"\nwhen = [[\"amount\", \"=\", \"\"]]\n",
        false,
    ),
    (
        "kind = \"count\"\nkey = \"account\"\nadd = \"amount\"\ninto = \"seen\"\n",
        true,
    ),
    (
        "kind = \"count\"\nkey = \"amount\"\nadd = 1\ninto = \"seen\"\n",
        false,
    ),
    (
        "kind = \"count\"\nkey = \"account\"\nadd = \"account\"\ninto = \"seen\"\n",
        false,
    ),
    (
        "kind = \"count\"\nkey = \"account\"\nadd = 1\ninto = \"merchant\"\n",
        false,
    ),
    (
        "kind = \"enrich\"\nkey = \"account\"\ninto = \"risk\"\ntable = \"none\"\nother = 1\n",
        false,
    ),
    ("kind = \"dedupe\"\nkey = \"account\"\n", true),
    ("kind = \"dedupe\"\nkey = \"amount\"\n", false),
    ("kind = \"dedupe\"\nkey = \"none\"\n", false),
    (
        "kind = \"clamp\"\non = \"amount\"\nlow = 1\nhigh = 1\n",
        true,
    ),
    ("kind = \"clamp\"\non = \"seen\"\nlow = 1\nhigh = 2\n", true),
    (
        "kind = \"clamp\"\non = \"account\"\nlow = 1\nhigh = 2\n",
        false,
    ),
    (
        "kind = \"clamp\"\non = \"none\"\nlow = 1\nhigh = 2\n",
        false,
    ),
    ("kind = \"sink\"\ncolumns = [\"seen\"]\n", true),
    ("kind = \"sink\"\ncolumns = [\"none\"]\n", false),
];
