ghost use Rattle.std.specs.Prelude.{◌≡◌};
ghost use Rattle.input_pieces.specs.Taps.{sure_left};

use crate::tank::Tank;
use crate::{Tap, TapFailed};
use tuple_trace::Bytes;

/// An input in memory that never fails.
#[derive(Drop)]
pub struct SureTap {
    tank: Tank,
    most: usize,
}

impl SureTap {
    /// An input of these bytes. A read gives at most `most` of them, but at least one if there is
    /// one. Takes no memory.
    pub fn new(bytes: Bytes, most: usize) -> Self
        ensures { sure_left result ≡ bytes }
    {
        SureTap {
            tank: Tank::new(bytes),
            most,
        }
    }

    /// The bytes that are left.
    pub fn left(&self) -> &[u8]
        ensures { result.now ≡ sure_left self.now }
    {
        self.tank.left()
    }
}

impl Tap for SureTap {
    ghost use Rattle.input_pieces.specs.Taps.{sure_state_of};

    ghost state = { sure_state_of };

    fn read(&mut self, room: &mut [u8]) -> Result<usize, TapFailed> {
        Ok(self.tank.give(self.most, room))
    }
}
