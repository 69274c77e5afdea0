ghost use Rattle.std.specs.Prelude.{◌≡◌};
ghost use Rattle.input_pieces.specs.declared.fault.PieceFault.TheVariants.{NoMemory as OutOfMemory};

use tuple_trace::NoMemory;

/// Why no piece was given.
#[derive(Clone, Copy, Debug, PartialEq, Eq)]
pub enum PieceFault {
    /// The tap refused, and has counted it. What was read is kept, and the next call reads on.
    Failed,
    /// 1,048,576 bytes are kept, and no record ends in them. Each later call answers the same.
    Long,
    /// What was read is kept, and the next call goes on.
    NoMemory,
}

impl From<NoMemory> for PieceFault {
    ghost from_gives = { λ _ e. e ≡ OutOfMemory };

    fn from(_: NoMemory) -> Self {
        PieceFault::NoMemory
    }
}
