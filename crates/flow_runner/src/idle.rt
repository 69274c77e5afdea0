ghost use Rattle.std.specs.Prelude.{◌<◌};

use std::hint::spin_loop;
use std::thread;

/// How many steps in a row may move nothing before a thread yields. No job has more workers, so
/// that is at least a round of the queue.
pub const PATIENCE: u32 = 64;

/// How many passes a spin has, at most.
const PASSES: u32 = 32;

/// What a thread does after a step that moved nothing. `idle` says how many such steps in a row came
/// before. It spins, longer at each of them, and yields at the last of [`PATIENCE`] steps. Returns
/// how many there are now. After a yield there are none.
pub fn pause(idle: u32) -> u32
    ensures { result < PATIENCE }
{
    if idle >= PATIENCE - 1 {
        thread::yield_now();
        return 0;
    }
    for _ in 0..idle.min(PASSES) {
        spin_loop();
    }
    idle + 1
}
