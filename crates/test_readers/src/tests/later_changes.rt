use super::change_cases::Case;
use versions::QFault;

/// Changes of the job with a node of each kind: of filters of repeats, and of clamps.
pub static OF_KINDS: &[Case] = &[
    // A filter of repeats stays one, with its key. Its counts are carried as those of a count.
    (
        "[[request.change]]\nnode = \"once\"\nfrom = 0\nkind = \"dedupe\"\nkey = \"who\"\n",
        None,
    ),
    (
        "[[request.change]]\nnode = \"once\"\nfrom = 0\nkind = \"dedupe\"\nkey = \"tags\"\n",
        Some(QFault::KindOrKey(1)),
    ),
    (
        "[[request.change]]\nnode = \"once\"\nfrom = 0\nkind = \"count\"\nkey = \"who\"\nadd = 1\ninto = \"sum\"\n",
        Some(QFault::KindOrKey(1)),
    ),
    (
        "[[request.change]]\nnode = \"tally\"\nfrom = 0\nkind = \"dedupe\"\nkey = \"who\"\n",
        Some(QFault::KindOrKey(1)),
    ),
    (
        "[[request.change]]\nnode = \"once\"\nfrom = 0\nkind = \"filter\"\nwhen = []\n",
        Some(QFault::KindOrKey(1)),
    ),
    (
        "[[request.change]]\nnode = \"once\"\nfrom = 0\nkind = \"clamp\"\non = \"sum\"\nlow = 1\nhigh = 2\n",
        Some(QFault::KindOrKey(1)),
    ),
    (
        "[[request.change]]\nnode = \"big\"\nfrom = 0\nkind = \"dedupe\"\nkey = \"who\"\n",
        Some(QFault::KindOrKey(1)),
    ),
    (
        "[[request.change]]\nnode = \"within\"\nfrom = 0\nkind = \"dedupe\"\nkey = \"who\"\n",
        Some(QFault::KindOrKey(1)),
    ),
    (
        "[[request.change]]\nnode = \"once\"\nfrom = 0\nkind = \"dedupe\"\nkey = \"sum\"\n",
        Some(QFault::IllTyped(1)),
    ),
    (
        "[[request.change]]\nnode = \"once\"\nfrom = 0\nkind = \"dedupe\"\nkey = \"none\"\n",
        Some(QFault::IllTyped(1)),
    ),
    (
        "[[request.change]]\nnode = \"once\"\nfrom = 1\nkind = \"dedupe\"\nkey = \"who\"\n",
        Some(QFault::Stale(1, 0)),
    ),
    (
        "[[request.change]]\nnode = \"once\"\nfrom = 0\nkind = \"dedupe\"\nkey = \"who\"\ncarry = \"keep\"\n",
        None,
    ),
    (
        "[[request.change]]\nnode = \"once\"\nfrom = 0\nkind = \"dedupe\"\nkey = \"who\"\ncarry = \"reset\"\n",
        None,
    ),
    (
        "[[request.change]]\nnode = \"once\"\nfrom = 0\nkind = \"dedupe\"\nkey = \"who\"\ncarry = [\"scale\", 0, 1]\n",
        None,
    ),
    (
        "[[request.change]]\nnode = \"once\"\nfrom = 0\nkind = \"dedupe\"\nkey = \"who\"\ncarry = [\"scale\", 1, 0]\n",
        Some(QFault::BadCarry(1)),
    ),
    (
        "[[request.change]]\nnode = \"once\"\nfrom = 0\nkind = \"dedupe\"\nkey = \"who\"\ncarry = [\"below\", 2]\n",
        None,
    ),
    // A clamp is of a free kind.
    (
        "[[request.change]]\nnode = \"big\"\nfrom = 0\nkind = \"clamp\"\non = \"sum\"\nlow = 1\nhigh = 2\n",
        None,
    ),
    (
        "[[request.change]]\nnode = \"add\"\nfrom = 0\nkind = \"clamp\"\non = \"sum\"\nlow = 1\nhigh = 2\n",
        None,
    ),
    (
        "[[request.change]]\nnode = \"pieces\"\nfrom = 0\nkind = \"clamp\"\non = \"sum\"\nlow = 1\nhigh = 2\n",
        None,
    ),
    (
        "[[request.change]]\nnode = \"within\"\nfrom = 0\nkind = \"clamp\"\non = \"sum\"\nlow = 1\nhigh = 2\n",
        None,
    ),
    (
        "[[request.change]]\nnode = \"within\"\nfrom = 0\nkind = \"filter\"\nwhen = []\n",
        None,
    ),
    (
        "[[request.change]]\nnode = \"within\"\nfrom = 0\nkind = \"map\"\nsteps = []\n",
        None,
    ),
    (
        "[[request.change]]\nnode = \"within\"\nfrom = 0\nkind = \"enrich\"\nkey = \"who\"\ninto = \"sum\"\ntable = \"known\"\nother = 0\n",
        None,
    ),
    (
        "[[request.change]]\nnode = \"within\"\nfrom = 0\nkind = \"split\"\non = \"tags\"\nby = \";\"\nmost = 3\n",
        None,
    ),
    (
        "[[request.change]]\nnode = \"within\"\nfrom = 0\nkind = \"split\"\non = \"tags\"\nby = \";\"\nmost = 4\n",
        Some(QFault::KindOrKey(1)),
    ),
    (
        "[[request.change]]\nnode = \"within\"\nfrom = 0\nkind = \"count\"\nkey = \"who\"\nadd = 1\ninto = \"sum\"\n",
        Some(QFault::KindOrKey(1)),
    ),
    (
        "[[request.change]]\nnode = \"tally\"\nfrom = 0\nkind = \"clamp\"\non = \"sum\"\nlow = 1\nhigh = 2\n",
        Some(QFault::KindOrKey(1)),
    ),
    (
        "[[request.change]]\nnode = \"both\"\nfrom = 0\nkind = \"clamp\"\non = \"sum\"\nlow = 1\nhigh = 2\n",
        Some(QFault::Fixed(1)),
    ),
    (
        "[[request.change]]\nnode = \"within\"\nfrom = 0\nkind = \"clamp\"\non = \"who\"\nlow = 1\nhigh = 2\n",
        Some(QFault::IllTyped(1)),
    ),
    (
        "[[request.change]]\nnode = \"within\"\nfrom = 0\nkind = \"clamp\"\non = \"none\"\nlow = 1\nhigh = 2\n",
        Some(QFault::IllTyped(1)),
    ),
    (
        "[[request.change]]\nnode = \"within\"\nfrom = 0\nkind = \"clamp\"\non = \"sum\"\nlow = 1\nhigh = 2\ncarry = \"reset\"\n",
        Some(QFault::BadCarry(1)),
    ),
];
