//! The payments job of examples/payments, its requests and its payments.

use crate::tests::Input;
use test_texts::{PAYMENTS_JOB, PAYMENTS_REQUESTS, TEN_PAYMENTS};

pub const TEN: Input<'static> = Input {
    job: PAYMENTS_JOB,
    requests: PAYMENTS_REQUESTS,
    payments: TEN_PAYMENTS,
};
