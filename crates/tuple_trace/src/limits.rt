// The limits of an engine and of a node's workers.

/// The most workers of a node.
pub const MAX_NODE_WORKERS: u32 = 8;

/// The most threads of an engine, with that of its caller.
pub const MAX_THREADS: u32 = 16;

/// The most items that a lane holds.
pub const MAX_CAPACITY: u32 = 64;

/// How many items a lane holds if nothing else is asked for.
pub const USUAL_CAPACITY: u32 = 16;
