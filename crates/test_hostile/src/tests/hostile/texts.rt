//! How many bytes may be left of each file that is cut.

/// So many bytes of a text may be left, from the least to the greatest number; and the status.
pub type Whole = (usize, usize, u8);

/// At most the line feed at the end of the chain may be missing.
pub const WHOLE_JOB: &[Whole] = &[(348, 349, 0)];

/// A payment may lack its line feed, but none of its fields.
pub const WHOLE_PAYMENTS: &[Whole] = &[
    (35, 36, 0),
    (51, 52, 0),
    (68, 69, 0),
    (84, 85, 0),
    (101, 102, 0),
];

/// A request without a change is refused by judging, which is no fault.
pub const WHOLE_REQUESTS: &[Whole] = &[
    (0, 1, 0),
    (22, 23, 8),
    (111, 112, 0),
    (195, 197, 0),
    (218, 219, 8),
    (304, 306, 0),
    (327, 328, 8),
    (413, 414, 8),
];
