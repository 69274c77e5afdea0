// Cases of what operators make of tuples.

/// A function, payments, and a line for each output.
pub type Case = (&'static str, &'static str, &'static str);

pub static PIECES: &[Case] = &[(
    "kind = \"split\"\non = \"tags\"\nby = \";\"\nmost = 3\n",
    "source,account,tags,amount,risk
in,,a;b;;c,0,1
in,,,0,1
",
    " 0+0#1.0@1.0.1  a 0 1
 0+1#1.0@1.0.1  b 0 1
 0+2#1.0@1.0.1   0 1
 0+0#2.0@1.0.1   0 1
",
)];

pub static PRODUCT: &[Case] = &[(
    "kind = \"map\"\nsteps = [[\"amount\", \"mul\", \"amount\", 1000000]]\n",
    "source,account,tags,amount,risk
in,,,92233720368547.75,1
",
    " 0#1.0@1.0.1   9223372036854775807 1
",
)];

pub static NUMBER_TESTS: &[Case] = &[
    (
        "kind = \"filter\"\nwhen = [[\"amount\", \"=\", 100]]\n",
        "source,account,tags,amount,risk
in,,,0.99,1
in,,,1.00,1
in,,,1.01,1
",
        " 1#1.0@1.0.1   99 1
 0#2.0@1.0.1   100 1
 1#3.0@1.0.1   101 1
",
    ),
    (
        "kind = \"filter\"\nwhen = [[\"amount\", \"!=\", 100]]\n",
        "source,account,tags,amount,risk
in,,,0.99,1
in,,,1.00,1
in,,,1.01,1
",
        " 0#1.0@1.0.1   99 1
 1#2.0@1.0.1   100 1
 0#3.0@1.0.1   101 1
",
    ),
    (
        "kind = \"filter\"\nwhen = [[\"amount\", \"<\", 100]]\n",
        "source,account,tags,amount,risk
in,,,0.99,1
in,,,1.00,1
in,,,1.01,1
",
        " 0#1.0@1.0.1   99 1
 1#2.0@1.0.1   100 1
 1#3.0@1.0.1   101 1
",
    ),
    (
        "kind = \"filter\"\nwhen = [[\"amount\", \"<=\", 100]]\n",
        "source,account,tags,amount,risk
in,,,0.99,1
in,,,1.00,1
in,,,1.01,1
",
        " 0#1.0@1.0.1   99 1
 0#2.0@1.0.1   100 1
 1#3.0@1.0.1   101 1
",
    ),
    (
        "kind = \"filter\"\nwhen = [[\"amount\", \">\", 100]]\n",
        "source,account,tags,amount,risk
in,,,0.99,1
in,,,1.00,1
in,,,1.01,1
",
        " 1#1.0@1.0.1   99 1
 1#2.0@1.0.1   100 1
 0#3.0@1.0.1   101 1
",
    ),
    (
        "kind = \"filter\"\nwhen = [[\"amount\", \">=\", 100]]\n",
        "source,account,tags,amount,risk
in,,,0.99,1
in,,,1.00,1
in,,,1.01,1
",
        " 1#1.0@1.0.1   99 1
 0#2.0@1.0.1   100 1
 0#3.0@1.0.1   101 1
",
    ),
];

pub static TEXT_TESTS: &[Case] = &[(
    "kind = \"filter\"\nwhen = [[\"account\", \"=\", \"anna\"]]\n",
    "source,account,tags,amount,risk
in,anna,,0,1
in,ann,,0,1
in,,,0,1
",
    " 0#1.0@1.0.1 anna  0 1
 1#2.0@1.0.1 ann  0 1
 1#3.0@1.0.1   0 1
",
)];

pub static ZERO_BARE: &[Case] = &[(
    "kind = \"filter\"\nwhen = [[\"amount\", \"=\", 0]]\n",
    "source
in
",
    " 0#1.0@1.0.1 0
",
)];

pub static ZERO_TURNED: &[Case] = &[(
    "kind = \"filter\"\nwhen = [[\"amount\", \"=\", 0]]\n",
    "source,account,tags,amount,risk
in,8,8,8,8
",
    " 0#1.0@1.0.1 8 8 8 8
",
)];

pub static ONE_PORT: &[Case] = &[(
    "kind = \"filter\"\nwhen = [[\"amount\", \">\", 5]]\n",
    "source,account,tags,amount,risk
in,,,0.05,1
in,,,0.06,1
",
    " 0#2.0@1.0.1   6 1
",
)];

pub static COPIES: &[Case] = &[(
    "kind = \"replicate\"\n",
    "source,account,tags,amount,risk
in,,t,0.05,1
",
    " 0+0#1.0@1.0.1  t 5 1
 1+1#1.0@1.0.1  t 5 1
",
)];

pub static PIECE_COUNTS: &[Case] = &[
    (
        "kind = \"split\"\non = \"tags\"\nby = \";\"\nmost = 2\n",
        "source,account,tags,amount,risk
in,,a;b,0,1
in,,a;b;c,0,1
",
        " 0+0#1.0@1.0.1  a 0 1
 0+1#1.0@1.0.1  b 0 1
 0+0#2.0@1.0.1  a 0 1
 0+1#2.0@1.0.1  b 0 1
",
    ),
    (
        "kind = \"split\"\non = \"tags\"\nby = \";\"\nmost = 16\n",
        "source,account,tags,amount,risk
in,,;,0,1
",
        " 0+0#1.0@1.0.1   0 1
 0+1#1.0@1.0.1   0 1
",
    ),
    (
        "kind = \"split\"\non = \"tags\"\nby = \";\"\nmost = 1\n",
        "source,account,tags,amount,risk
in,,abc,0,1
",
        " 0+0#1.0@1.0.1  abc 0 1
",
    ),
];

pub static PIECE_TURNED: &[Case] = &[(
    "kind = \"split\"\non = \"tags\"\nby = \";\"\nmost = 3\n",
    "source,account,tags,amount,risk
in,8,8,8,8
",
    " 0+0#1.0@1.0.1 8 8 8 8
",
)];

pub static OPERATIONS: &[Case] = &[
    (
        "kind = \"map\"\nsteps = [[\"amount\", \"add\", \"risk\", 1], [\"risk\", \"add\", 3, 4]]\n",
        "source,account,tags,amount,risk
in,,,0,9223372036854775807
",
        " 0#1.0@1.0.1   9223372036854775807 7
",
    ),
    (
        "kind = \"map\"
steps = [[\"amount\", \"sub\", \"risk\", 1], [\"risk\", \"sub\", 0, \"risk\"]]
",
        "source,account,tags,amount,risk
in,,,0,-9223372036854775808
",
        " 0#1.0@1.0.1   -9223372036854775808 9223372036854775807
",
    ),
    (
        "kind = \"map\"
steps = [[\"amount\", \"mul\", -3, 4], [\"risk\", \"mul\", \"risk\", \"risk\"]]
",
        "source,account,tags,amount,risk
in,,,0,-9223372036854775808
",
        " 0#1.0@1.0.1   -12 9223372036854775807
",
    ),
    (
        "kind = \"map\"\nsteps = [[\"amount\", \"min\", -5, 3], [\"risk\", \"max\", -5, 3]]\n",
        "source,account,tags,amount,risk
in,,,0,1
",
        " 0#1.0@1.0.1   -5 3
",
    ),
];

pub static DOUBLED: &[Case] = &[(
    "kind = \"map\"
steps = [[\"risk\", \"add\", \"amount\", \"amount\"], [\"amount\", \"add\", \"risk\", \"risk\"]]
",
    "source,account,tags,amount,risk
in,,,0.10,1
",
    " 0#1.0@1.0.1   40 20
",
)];

pub static DOUBLED_TURNED: &[Case] = &[(
    "kind = \"map\"
steps = [[\"risk\", \"add\", \"amount\", \"amount\"], [\"amount\", \"add\", \"risk\", \"risk\"]]
",
    "source,account,tags,amount,risk
in,8,8,8,8
",
    " 0#1.0@1.0.1 8 8 8 8
",
)];

pub static DOUBLED_BARE: &[Case] = &[(
    "kind = \"map\"
steps = [[\"risk\", \"add\", \"amount\", \"amount\"], [\"amount\", \"add\", \"risk\", \"risk\"]]
",
    "source
in
",
    " 0#1.0@1.0.1 0
",
)];

pub static RATED: &[Case] = &[(
    "kind = \"enrich\"\nkey = \"account\"\ninto = \"risk\"\ntable = \"risks\"\nother = -1\n",
    "source,account,tags,amount,risk
in,ann,,0.04,1
in,anna,,0.04,1
in,,,0.04,1
",
    " 0#1.0@1.0.1 ann  4 3
 0#2.0@1.0.1 anna  4 -1
 0#3.0@1.0.1   4 5
",
)];

pub static RATED_TURNED: &[Case] = &[(
    "kind = \"enrich\"\nkey = \"account\"\ninto = \"risk\"\ntable = \"risks\"\nother = -1\n",
    "source,account,tags,amount,risk
in,8,8,8,8
",
    " 0#1.0@1.0.1 8 8 8 8
",
)];

pub static COUNT: &[Case] = &[(
    "kind = \"count\"\nkey = \"account\"\nadd = \"amount\"\ninto = \"risk\"\n",
    "source,account,tags,amount,risk
in,ann,,0.05,1
in,bob,,-0.07,1
in,ann,,92233720368547758.07,1
in,bob,,-92233720368547758.08,1
in,,,0.02,1
in,,,0,1
",
    " 0#1.0@1.0.1 ann  5 5
 0#2.0@1.0.1 bob  -7 -7
 0#3.0@1.0.1 ann  9223372036854775807 9223372036854775807
 0#4.0@1.0.1 bob  -9223372036854775808 -9223372036854775808
 0#5.0@1.0.1   2 2
 0#6.0@1.0.1   0 2
",
)];

pub static COUNT_TURNED: &[Case] = &[(
    "kind = \"count\"\nkey = \"account\"\nadd = \"amount\"\ninto = \"risk\"\n",
    "source,account,tags,amount,risk
in,8,8,8,8
",
    " 0#1.0@1.0.1 8 8 8 8
",
)];

pub static UNCHANGED: &[Case] = &[(
    "kind = \"map\"\nsteps = []\n",
    "source,account,tags,amount,risk
in,ann,b,0.05,2
",
    " 0#1.0@1.0.1 ann b 5 2
",
)];
