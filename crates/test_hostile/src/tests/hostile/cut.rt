//! Files that are cut after each of their bytes.

use crate::tests::hostile::texts::{WHOLE_JOB, WHOLE_PAYMENTS, WHOLE_REQUESTS, Whole};
use crate::tests::hostile::{Around, Text, Tried, check_tried, four};
use test_texts::{CHAIN, FOUR_PAYMENTS, PAYMENTS_JOB, PAYMENTS_REQUESTS, TEN_PAYMENTS};

#[derive(Clone, Copy)]
pub enum File {
    Job,
    Requests,
    Payments,
}

/// A file that is cut.
#[derive(Clone, Copy)]
pub struct Cuts {
    pub file: File,
    pub text: &'static str,
    /// Where it may be cut.
    pub whole: &'static [Whole],
    /// The status if it is cut anywhere else.
    pub refused: u8,
}

const JOB: Cuts = Cuts {
    file: File::Job,
    text: CHAIN,
    whole: WHOLE_JOB,
    refused: 2,
};

const REQUEST_FILE: Cuts = Cuts {
    file: File::Requests,
    text: PAYMENTS_REQUESTS,
    whole: WHOLE_REQUESTS,
    refused: 3,
};

const PAYMENT_FILE: Cuts = Cuts {
    file: File::Payments,
    text: FOUR_PAYMENTS,
    whole: WHOLE_PAYMENTS,
    refused: 4,
};

impl Cuts {
    /// What a call finds if `end` bytes of the file are left.
    pub fn around_at(self, end: usize) -> Around<'static> {
        let left = Text::of(self.text.as_bytes().get(..end).unwrap_or(&[]));
        match self.file {
            File::Job => Around {
                job: left,
                ..four()
            },
            File::Requests => Around {
                job: Text::of(PAYMENTS_JOB.as_bytes()),
                requests: left,
                payments: Text::of(TEN_PAYMENTS.as_bytes()),
                ..four()
            },
            File::Payments => Around {
                payments: left,
                ..four()
            },
        }
    }

    /// The status if `end` bytes are left.
    pub fn status_at(self, end: usize) -> u8 {
        for (least, most, status) in self.whole {
            if *least <= end && end <= *most {
                return *status;
            }
        }
        self.refused
    }
}

#[test]
fn job_file_cut_anywhere(rt: HostRuntime) {
    check_tried(&rt, "the job", Tried::Cut(JOB));
}

#[test]
fn request_file_cut_anywhere(rt: HostRuntime) {
    check_tried(&rt, "the requests", Tried::Cut(REQUEST_FILE));
}

#[test]
fn payments_cut_anywhere(rt: HostRuntime) {
    check_tried(&rt, "the payments", Tried::Cut(PAYMENT_FILE));
}
