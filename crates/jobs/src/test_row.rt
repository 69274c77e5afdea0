// The tests of conditions, a row each.
ghost use Rattle.std.specs.Prelude.{◌≡◌};
ghost use Rattle.jobs.specs.Tests.{row_of_test, test_named};

use crate::Test;

/// A test in one row.
#[derive(Clone, Copy, Debug)]
pub struct TestRow {
    /// The word of a job file for the test.
    pub word: &'static str,
    /// Whether texts may be tested, and not only numbers. A column of texts is compared with a
    /// text, and a column of numbers or cents with a number.
    pub texts: bool,
    /// Whether the test holds of a number below the literal.
    pub less: bool,
    /// Whether the test holds of a number or a text that is the literal. A test of texts holds of
    /// every other text if it doesn't hold of this one.
    pub equal: bool,
    /// Whether the test holds of a number above the literal.
    pub greater: bool,
}

impl Test {
    /// The row of the test. A new test has its row here and in `specs/Tests.antt`.
    pub fn row(self) -> TestRow
        ensures word { result.word.now ≡ (row_of_test self).word }
        ensures texts { result.texts ≡ (row_of_test self).texts }
        ensures less { result.less ≡ (row_of_test self).less }
        ensures equal { result.equal ≡ (row_of_test self).equal }
        ensures greater { result.greater ≡ (row_of_test self).greater }
    {
        match self {
            Test::Eq => TestRow {
                word: "=",
                texts: true,
                less: false,
                equal: true,
                greater: false,
            },
            Test::Ne => TestRow {
                word: "!=",
                texts: true,
                less: true,
                equal: false,
                greater: true,
            },
            Test::Lt => TestRow {
                word: "<",
                texts: false,
                less: true,
                equal: false,
                greater: false,
            },
            Test::Le => TestRow {
                word: "<=",
                texts: false,
                less: true,
                equal: true,
                greater: false,
            },
            Test::Gt => TestRow {
                word: ">",
                texts: false,
                less: false,
                equal: false,
                greater: true,
            },
            Test::Ge => TestRow {
                word: ">=",
                texts: false,
                less: false,
                equal: true,
                greater: true,
            },
        }
    }

    /// The test of a word, if there is one. Takes no memory.
    pub fn named(word: &str) -> Option<Test>
        ensures { result ≡ test_named word.now }
    {
        let tests = [Test::Eq, Test::Ne, Test::Lt, Test::Le, Test::Gt, Test::Ge];
        for test in &tests {
            if word == test.row().word {
                return Some(*test);
            }
        }
        None
    }
}
