// The limits of an audit.

/// The number of the last code by which requests are refused, `Q10`.
pub const LAST_REFUSAL_CODE: u64 = 10;
