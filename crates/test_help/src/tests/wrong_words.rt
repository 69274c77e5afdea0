use crate::tests::{check_told, check_told_after, shelf_of, told_of, words_of};
use fries_help::{Call, ShelfLook, advice};
use fries_help_words::{opening, word_fault};
use fries_lines::Fault;
use std::alloc::Global;
use tuple_trace::NoMemory;

const CASES: &[(&[&str], &str)] = &[
    (&[], "No command is named."),
    (
        &["chek", "j"],
        "There is no command `chek`; is it `check`? The commands are check, plan, run, live, \
stream, save, resume, verify, make, first.",
    ),
    (
        &["frobnicate"],
        "There is no command `frobnicate`. The commands are check, plan, run, live, \
stream, save, resume, verify, make, first.",
    ),
    (
        &["--threads", "2", "run"],
        "Options stand after the command.",
    ),
    (
        &["--help", "run"],
        "`--help` stands alone; `--help` may also be the one word after a command.",
    ),
    (
        &["run", "j", "r", "p", "a"],
        "`run` takes 5 names (JOB REQUESTS PAYMENTS ALERTS AUDIT), and here are 4: AUDIT is \
missing. Type `fries run --help`.",
    ),
    (
        &["verify", "j", "r", "p", "--ordered"],
        "`verify` takes 4 or 5 names (JOB REQUESTS PAYMENTS AUDIT [ALERTS]), and here are 3: AUDIT \
is missing. Type `fries verify --help`.",
    ),
    (
        &["verify", "j", "r", "p", "u", "a", "x"],
        "`verify` takes 4 or 5 names (JOB REQUESTS PAYMENTS AUDIT [ALERTS]), and here are 6: `x` \
is too many. Type `fries verify --help`.",
    ),
    (
        &["verify", "j", "r", "p", "u", ""],
        "ALERTS is an empty word. Type `fries verify --help`.",
    ),
    (
        &["check"],
        "`check` takes 1 name (JOB), and here are 0: JOB is missing. Type `fries check --help`.",
    ),
    (
        &["check", "a", "b"],
        "`check` takes 1 name (JOB), and here are 2: `b` is too many. Type `fries check --help`.",
    ),
    (
        &["run", "j", "r", "p", "a", "u", "--threads", "17"],
        "`--threads` is 1 to 16, and here it is `17`. Type `fries run --help`.",
    ),
    (
        &["live", "j", "r", "--capacity=0", "p", "a", "u"],
        "`--capacity` is 1 to 64, and here it is `0`. Type `fries live --help`.",
    ),
    (
        &["run", "j", "r", "p", "a", "u", "--thread", "2"],
        "`run` has no option `--thread`; is it `--threads`? Its options are `--threads`, \
`--capacity`, `--ordered`, `--exact`. Type `fries run --help`.",
    ),
    (
        &["check", "j", "--ordered"],
        "`check` has no option `--ordered`. It has none. Type `fries check --help`.",
    ),
    (
        &["plan", "j", "r", "--ordered", "--ordered"],
        "`--ordered` stands more than once. Type `fries plan --help`.",
    ),
    (
        &["plan", "j", "r", "--ordered=1"],
        "`--ordered` takes no value. Type `fries plan --help`.",
    ),
    (
        &["make", "j", "7", "9", "--threads"],
        "No number follows `--threads`. Type `fries make --help`.",
    ),
    (
        &["make", "j", "7", "many"],
        "`ROWS` is 0 to 4294967295, and here it is `many`. Type `fries make --help`.",
    ),
    (
        &["save", "j", "r", "p", "a", "u", "a", "3"],
        "ALERTS and SAVE are the same word. Type `fries save --help`.",
    ),
    (
        &["run", "j", "r", "p", "a", "a"],
        "ALERTS and AUDIT are the same word. Type `fries run --help`.",
    ),
    (
        &["check", "-x"],
        "`-x` is no option; a name that begins with `-` is written as `./-x`. \
Type `fries check --help`.",
    ),
    (
        &["stream", "j", "q", "a", "u", "--every", "5"],
        "`--every` needs `--save`. Type `fries stream --help`.",
    ),
    (
        &["verify", "j", "r", "p", "u", "--live", "--ordered"],
        "`--ordered` and `--live` don't stand together. Type `fries verify --help`.",
    ),
    (
        &["verify", "j", "r", "p", "u", "--save=s", "--ordered"],
        "`--ordered` and `--save` don't stand together. Type `fries verify --help`.",
    ),
    (
        &["verify", "--save", "u", "j", "r", "p", "u", "a", "--live"],
        "`--live` and `--save` don't stand together. Type `fries verify --help`.",
    ),
    (
        &["verify", "j", "r", "p", "u", "--stream", "--live"],
        "`--live` and `--stream` don't stand together. Type `fries verify --help`.",
    ),
    (
        &["verify", "--stream", "j", "r", "p", "u", "a"],
        "`--stream` and ALERTS don't stand together. Type `fries verify --help`.",
    ),
    (
        &["verify", "j", "r", "p", "u", "--save"],
        "No name follows `--save`. Type `fries verify --help`.",
    ),
    (
        &["verify", "j", "r", "p", "u", "--live=1"],
        "`--live` takes no value. Type `fries verify --help`.",
    ),
    (
        &["check", ""],
        "JOB is an empty word. Type `fries check --help`.",
    ),
];

fn told_of_words(alloc: Global, words: &[&str]) -> Result<String, NoMemory> {
    let words = words_of(alloc, words)?;
    Ok(word_fault(alloc, words.as_slice())?)
}

#[test]
fn the_first_wrong_word_is_told(rt: HostRuntime) {
    for (words, told) in CASES {
        check_told(&rt, told_of_words(rt.alloc(), words), told);
    }
}

const NO_WORDS: &str = "
fries: usage
  These words have no form that the program knows.
  No command is named.
  Type `fries --help` for the forms of all commands.
";

#[test]
fn no_words_are_told_with_the_help(rt: HostRuntime) {
    let told = told_of(rt.alloc(), &[], &[], Some(Fault::Usage), &[]);
    check_told_after(&rt, opening(&[]), told, NO_WORDS);
}

const WORD_0: &str = "fries: usage
  These words have no form that the program knows.
  Word 0 isn't UTF-8; the name of the program is word 0.
  Type `fries --help` for the forms of all commands.
";

const WORD_2: &str = "fries: usage
  These words have no form that the program knows.
  Word 2 isn't UTF-8; the name of the program is word 0.
  Type `fries --help` for the forms of all commands.
";

// What is told of a call of which this word isn't UTF-8.
fn told_of_word(alloc: Global, place: usize) -> Result<String, NoMemory> {
    let mut shelf = shelf_of(alloc, &[])?;
    let call = Call {
        words: &[],
        not_utf8: Some(place),
        fault: Some(Fault::Usage),
        refused: &[],
    };
    advice(alloc, call, &mut ShelfLook { shelf: &mut shelf })
}

#[test]
fn a_word_that_is_not_utf_8_is_told_by_its_place(rt: HostRuntime) {
    check_told(&rt, told_of_word(rt.alloc(), 0), WORD_0);
    check_told(&rt, told_of_word(rt.alloc(), 2), WORD_2);
}
