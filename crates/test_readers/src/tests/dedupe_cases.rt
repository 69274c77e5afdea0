// Filters of repeats: the answers of the reader, and what they put out.
use super::cases::Case as Applied;
use super::reading::{Case, Text};
use job_file::{JobFault, Part, Which};

/// The function of a node between a source and one sink or two, and what the reader answers.
pub static READ: &[Case] = &[
    (Text::Func, "kind = \"dedupe\"\nkey = \"who\"\n", Ok(())),
    (
        Text::Func,
        "kind = \"dedupe\"\nkey = \"who\"\nworkers = 8\n",
        Ok(()),
    ),
    (
        Text::Func,
        "kind = \"dedupe\"\nkey = \"who\"\nworkers = 9\n",
        Err(JobFault::Limit(Which::Workers, 9)),
    ),
    (
        Text::Func,
        "kind = \"dedupe\"\n",
        Err(JobFault::Shape(Part::Key)),
    ),
    (
        Text::Func,
        "kind = \"dedupe\"\nkey = 3\n",
        Err(JobFault::Shape(Part::Key)),
    ),
    (
        Text::Func,
        "kind = \"dedupe\"\nkey = [\"who\"]\n",
        Err(JobFault::Shape(Part::Key)),
    ),
    (
        Text::Func,
        "kind = \"dedupe\"\nkey = \"who\"\nadd = 1\n",
        Err(JobFault::Shape(Part::Unknown)),
    ),
    (
        Text::Func,
        "kind = \"dedupe\"\ninto = \"risk\"\n",
        Err(JobFault::Shape(Part::Unknown)),
    ),
    (
        Text::Func,
        "kind = \"dedupe\"\nkey = \"who\"\nroof = 1\n",
        Err(JobFault::Shape(Part::Unknown)),
    ),
    (
        Text::Func,
        "kind = \"dedup\"\nkey = \"who\"\n",
        Err(JobFault::Shape(Part::Kind)),
    ),
    // A key of numbers, of cents, and one that is no column.
    (
        Text::Func,
        "kind = \"dedupe\"\nkey = \"risk\"\n",
        Err(JobFault::Column(1)),
    ),
    (
        Text::Func,
        "kind = \"dedupe\"\nkey = \"sum\"\n",
        Err(JobFault::Column(1)),
    ),
    (
        Text::Func,
        "kind = \"dedupe\"\nkey = \"whom\"\n",
        Err(JobFault::Column(1)),
    ),
    (
        Text::Func,
        "kind = \"dedupe\"\nkey = \"whom\"\nworkers = 9\n",
        Err(JobFault::Limit(Which::Workers, 9)),
    ),
    (
        Text::TwoWays,
        "kind = \"dedupe\"\nkey = \"who\"\n",
        Err(JobFault::Ports(1)),
    ),
];

/// The first tuple of each account passes, whatever else it has.
pub const BY_ACCOUNT: &str = "kind = \"dedupe\"\nkey = \"account\"\n";

pub static FIRSTS: &[Applied] = &[
    (
        BY_ACCOUNT,
        "source,account,tags,amount,risk
in,ann,a,0.05,1
in,bob,a,0.05,1
in,ann,b,0.06,2
in,,a,0.05,1
in,anna,a,0.05,1
in,bob,a,0.05,1
in,,b,0,3
in,ann,a,0.05,1
in,Ann,a,0.05,1
",
        " 0#1.0@1.0.1 ann a 5 1
 0#2.0@1.0.1 bob a 5 1
 0#4.0@1.0.1  a 5 1
 0#5.0@1.0.1 anna a 5 1
 0#9.0@1.0.1 Ann a 5 1
",
    ),
    (
        "kind = \"dedupe\"\nkey = \"tags\"\n",
        "source,account,tags,amount,risk
in,ann,a;b,0,1
in,bob,a;b,0,1
in,ann,a,0,1
in,bob,,0,1
in,ann,,0,1
",
        " 0#1.0@1.0.1 ann a;b 0 1
 0#3.0@1.0.1 ann a 0 1
 0#4.0@1.0.1 bob  0 1
",
    ),
];

/// Accounts that are numbers, each read as the empty text.
pub static FIRSTS_TURNED: &[Applied] = &[(
    BY_ACCOUNT,
    "source,account,tags,amount,risk
in,8,8,8,8
in,9,9,9,9
",
    " 0#1.0@1.0.1 8 8 8 8
",
)];

/// The first column is a number, and there is no second one.
pub static FIRSTS_BARE: &[Applied] = &[
    (
        BY_ACCOUNT,
        "source
in
in
",
        " 0#1.0@1.0.1 0
",
    ),
    (
        "kind = \"dedupe\"\nkey = \"tags\"\n",
        "source
in
in
",
        " 0#1.0@1.0.1 0
",
    ),
];

/// Two payments of one account, and one of another.
pub const TWO_AND_ONE: &str = "source,account,tags,amount,risk
in,ann,,0,1
in,ann,,0,2
in,bob,,0,3
";

/// What passes of them: the first of each account, both of them and the other, or the other alone.
pub const BOTH_FIRSTS: &str = " 0#1.0@1.0.1 ann  0 1
 0#3.0@1.0.1 bob  0 3
";

pub const ALL_THREE: &str = " 0#1.0@1.0.1 ann  0 1
 0#2.0@1.0.1 ann  0 2
 0#3.0@1.0.1 bob  0 3
";

pub const THE_OTHER: &str = " 0#3.0@1.0.1 bob  0 3
";
