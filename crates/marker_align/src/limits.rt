// How many lanes end at a worker.

/// How many lanes a [`LaneSet`](crate::LaneSet) has a bit for.
pub const LANE_SET_BITS: usize = 128;

/// The most lanes that end at a worker.
pub const MAX_LANES_IN: usize = 127;
