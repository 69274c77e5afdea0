//! The payments of a test of `overtaking`.

/// Fourteen payments of 75.00.
pub const FOURTEEN_OF_75: &str = "source,amount
card,75
card,75
card,75
card,75
card,75
card,75
card,75
card,75
card,75
card,75
card,75
card,75
card,75
card,75
";
