// The limits of a list of requests.

/// The most requests of a list that is read at once.
pub const MAX_REQUESTS: usize = 64;

/// The most requests of a stream, over all readings of its file.
pub const MAX_STREAM_REQUESTS: usize = 1024;

/// The most changes of a request.
pub const MAX_CHANGES: usize = 64;

/// The latest row after which a request may be asked for.
pub const MAX_AFTER: u64 = 1_048_576;
