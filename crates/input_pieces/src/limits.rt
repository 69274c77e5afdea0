// The limits of reads and pieces.

/// The most bytes that one read of a tap takes.
pub const READ_SIZE: usize = 65_536;

/// A record with its line feed has at most so many bytes, and so has a piece.
pub const MAX_RECORD: usize = 1_048_576;
