//! The runs whose audits are checked.
use crate::tests::payments_job;
use test_runs::Inputs;
use test_texts::{AMOUNT_CHAIN, PAYMENTS_JOB, PAYMENTS_REQUESTS, TEN_PAYMENTS};

pub const NO_PAYMENTS: Inputs<'_> = Inputs {
    job: AMOUNT_CHAIN,
    requests: "",
    payments: "source,amount\n",
    ordered: false,
};

pub const FOUR_PAYMENTS: Inputs<'_> = Inputs {
    job: AMOUNT_CHAIN,
    requests: "",
    payments: "source,amount
card,99.99
card,150.00
card,100.00
card,12.00
",
    ordered: false,
};

/// Payments over a filter, a counter with two workers and two sinks. Of the three requests the last
/// is refused.
pub const PAYMENTS: Inputs<'_> = Inputs {
    job: PAYMENTS_JOB,
    requests: PAYMENTS_REQUESTS,
    payments: TEN_PAYMENTS,
    ordered: false,
};
