// Clamps: the answers of the reader, and what they put out.
use super::cases::Case as Applied;
use super::reading::{Case, Text};
use job_file::{JobFault, Part, Which};

/// The function of a node between a source and one sink or two, and what the reader answers.
pub static READ: &[Case] = &[
    (
        Text::Func,
        "kind = \"clamp\"\non = \"risk\"\nlow = 1\nhigh = 2\n",
        Ok(()),
    ),
    (
        Text::Func,
        "kind = \"clamp\"\non = \"sum\"\nlow = -100\nhigh = -100\n",
        Ok(()),
    ),
    (
        Text::Func,
        "kind = \"clamp\"\non = \"risk\"\nlow = -9223372036854775808\nhigh = 9223372036854775807\n",
        Ok(()),
    ),
    (
        Text::Func,
        "kind = \"clamp\"\non = \"risk\"\nlow = 1\nhigh = 2\nworkers = 8\nroof = 16\n",
        Ok(()),
    ),
    (
        Text::Func,
        "kind = \"clamp\"\non = \"risk\"\nlow = 1\nhigh = 2\nworkers = 9\n",
        Err(JobFault::Limit(Which::Workers, 9)),
    ),
    (
        Text::Func,
        "kind = \"clamp\"\non = \"risk\"\nlow = 1\nhigh = 2\nroof = 17\n",
        Err(JobFault::Limit(Which::Roof, 17)),
    ),
    (
        Text::Func,
        "kind = \"clamp\"\non = \"risk\"\nlow = 1\nhigh = 2\nroof = 0\n",
        Err(JobFault::Limit(Which::Roof, 0)),
    ),
    (
        Text::Func,
        "kind = \"clamp\"\nlow = 1\nhigh = 2\n",
        Err(JobFault::Shape(Part::On)),
    ),
    (
        Text::Func,
        "kind = \"clamp\"\non = \"risk\"\nhigh = 2\n",
        Err(JobFault::Shape(Part::Low)),
    ),
    (
        Text::Func,
        "kind = \"clamp\"\non = \"risk\"\nlow = 1\n",
        Err(JobFault::Shape(Part::High)),
    ),
    (
        Text::Func,
        "kind = \"clamp\"\non = 3\nlow = 1\nhigh = 2\n",
        Err(JobFault::Shape(Part::On)),
    ),
    (
        Text::Func,
        "kind = \"clamp\"\non = \"risk\"\nlow = 1.5\nhigh = 2\n",
        Err(JobFault::Shape(Part::Low)),
    ),
    (
        Text::Func,
        "kind = \"clamp\"\non = \"risk\"\nlow = \"a\"\nhigh = 2\n",
        Err(JobFault::Shape(Part::Low)),
    ),
    (
        Text::Func,
        "kind = \"clamp\"\non = \"risk\"\nlow = 1\nhigh = 2.0\n",
        Err(JobFault::Shape(Part::High)),
    ),
    (
        Text::Func,
        "kind = \"clamp\"\non = \"risk\"\nlow = 1\nhigh = \"risk\"\n",
        Err(JobFault::Shape(Part::High)),
    ),
    (
        Text::Func,
        "kind = \"clamp\"\non = \"risk\"\nlow = 1\nhigh = 2\nmost = 1\n",
        Err(JobFault::Shape(Part::Unknown)),
    ),
    (
        Text::Func,
        "kind = \"clamp\"\non = \"risk\"\nlow = 1\nhigh = 2\nkey = \"who\"\n",
        Err(JobFault::Shape(Part::Unknown)),
    ),
    // A high end below the low one. It comes before a number of workers, and before a column.
    (
        Text::Func,
        "kind = \"clamp\"\non = \"risk\"\nlow = 2\nhigh = 1\n",
        Err(JobFault::Shape(Part::High)),
    ),
    (
        Text::Func,
        "kind = \"clamp\"\non = \"risk\"\nlow = 0\nhigh = -1\n",
        Err(JobFault::Shape(Part::High)),
    ),
    (
        Text::Func,
        "kind = \"clamp\"\non = \"risk\"\nlow = 9223372036854775807\nhigh = -9223372036854775808\n",
        Err(JobFault::Shape(Part::High)),
    ),
    (
        Text::Func,
        "kind = \"clamp\"\non = \"none\"\nlow = 2\nhigh = 1\nworkers = 9\n",
        Err(JobFault::Shape(Part::High)),
    ),
    // What comes before it: a key that no clamp has, and a low end that is no number.
    (
        Text::Func,
        "kind = \"clamp\"\non = \"risk\"\nlow = 2\nhigh = 1\nmost = 1\n",
        Err(JobFault::Shape(Part::Unknown)),
    ),
    (
        Text::Func,
        "kind = \"clamp\"\non = \"risk\"\nlow = \"2\"\nhigh = 1\n",
        Err(JobFault::Shape(Part::Low)),
    ),
    // A column of texts, and one that is none.
    (
        Text::Func,
        "kind = \"clamp\"\non = \"who\"\nlow = 1\nhigh = 2\n",
        Err(JobFault::Column(1)),
    ),
    (
        Text::Func,
        "kind = \"clamp\"\non = \"none\"\nlow = 1\nhigh = 2\n",
        Err(JobFault::Column(1)),
    ),
    (
        Text::TwoWays,
        "kind = \"clamp\"\non = \"risk\"\nlow = 1\nhigh = 2\n",
        Err(JobFault::Ports(1)),
    ),
    (
        Text::TwoWays,
        "kind = \"clamp\"\non = \"risk\"\nlow = 1\nhigh = 2\nroof = 2\n",
        Err(JobFault::Ports(1)),
    ),
];

/// Cents and numbers below, at, between and above the two ends.
pub static CLAMPED: &[Applied] = &[
    (
        "kind = \"clamp\"\non = \"amount\"\nlow = 100\nhigh = 200\n",
        "source,account,tags,amount,risk
in,ann,a,0.99,1
in,,,1.00,1
in,,,1.50,1
in,,,2.00,1
in,,,2.01,1
in,,,-5.00,1
",
        " 0#1.0@1.0.1 ann a 100 1
 0#2.0@1.0.1   100 1
 0#3.0@1.0.1   150 1
 0#4.0@1.0.1   200 1
 0#5.0@1.0.1   200 1
 0#6.0@1.0.1   100 1
",
    ),
    (
        "kind = \"clamp\"\non = \"risk\"\nlow = -5\nhigh = 5\n",
        "source,account,tags,amount,risk
in,,,0.09,-6
in,,,0.09,-5
in,,,0.09,0
in,,,0.09,5
in,,,0.09,6
",
        " 0#1.0@1.0.1   9 -5
 0#2.0@1.0.1   9 -5
 0#3.0@1.0.1   9 0
 0#4.0@1.0.1   9 5
 0#5.0@1.0.1   9 5
",
    ),
    (
        "kind = \"clamp\"\non = \"risk\"\nlow = 7\nhigh = 7\n",
        "source,account,tags,amount,risk
in,,,0,6
in,,,0,7
in,,,0,8
",
        " 0#1.0@1.0.1   0 7
 0#2.0@1.0.1   0 7
 0#3.0@1.0.1   0 7
",
    ),
    (
        "kind = \"clamp\"\non = \"risk\"\nlow = -9223372036854775808\nhigh = -1\n",
        "source,account,tags,amount,risk
in,,,0,-9223372036854775808
in,,,0,9223372036854775807
",
        " 0#1.0@1.0.1   0 -9223372036854775808
 0#2.0@1.0.1   0 -1
",
    ),
    (
        "kind = \"clamp\"\non = \"risk\"\nlow = 0\nhigh = 9223372036854775807\n",
        "source,account,tags,amount,risk
in,,,0,-9223372036854775808
in,,,0,9223372036854775807
",
        " 0#1.0@1.0.1   0 0
 0#2.0@1.0.1   0 9223372036854775807
",
    ),
];

/// Amounts that are texts stay.
pub static CLAMPED_TURNED: &[Applied] = &[(
    "kind = \"clamp\"\non = \"amount\"\nlow = 100\nhigh = 200\n",
    "source,account,tags,amount,risk
in,8,8,8,8
",
    " 0#1.0@1.0.1 8 8 8 8
",
)];

/// There is no amount.
pub static CLAMPED_BARE: &[Applied] = &[(
    "kind = \"clamp\"\non = \"amount\"\nlow = 100\nhigh = 200\n",
    "source
in
",
    " 0#1.0@1.0.1 0
",
)];
