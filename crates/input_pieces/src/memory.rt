ghost use Rattle.std.specs.Prelude.{◌≡◌, ◌≤◌, IfOk, length};
ghost use Rattle.std.specs.Io.KnownBytes.{ReadConsumes};
ghost use Rattle.input_pieces.specs.Taps.{TapCause, after_step, answer_of, faults_of};
ghost use Rattle.input_pieces.specs.Taps.{left_of, memory_state_of, next_step, script_of};

use crate::tank::Tank;
use crate::{Tap, TapFailed};
use tuple_trace::{Bytes, Items};

/// What one read of a [`MemoryTap`] does.
#[derive(Clone, Copy)]
pub enum TapStep {
    /// It gives at most so many bytes, but at least one if there is one.
    Gives(usize),
    Fails,
}

/// An input in memory. It tells its bytes, and goes by the steps that it was given: one a read.
/// Behind the last step a read gives as many bytes as there is room for.
#[derive(Drop)]
pub struct MemoryTap {
    tank: Tank,
    steps: Items<TapStep>,
    /// How many of the steps are done.
    done: usize,
    faults: u64,
}

impl MemoryTap {
    /// An input of these bytes. Takes no memory.
    pub fn new(bytes: Bytes, steps: Items<TapStep>) -> Self
        ensures left { left_of result ≡ bytes }
        ensures script { script_of result ≡ record { steps = steps; done = 0 } }
        ensures faults { faults_of result ≡ 0 }
    {
        MemoryTap {
            tank: Tank::new(bytes),
            steps,
            done: 0,
            faults: 0,
        }
    }

    /// The bytes that are left.
    pub fn left(&self) -> &[u8]
        ensures { result.now ≡ left_of self.now }
    {
        self.tank.left()
    }

    /// How many reads have failed.
    pub fn faults(&self) -> u64
        ensures { result ≡ faults_of self.now }
    {
        self.faults
    }

    // Takes the next step. None behind the last.
    fn step(&mut self) -> Option<TapStep>
        ensures step { result ≡ next_step (script_of self.old) }
        ensures script { script_of self.new ≡ after_step (script_of self.old) }
        ensures tank { self.new.tank ≡ self.old.tank }
        ensures faults { self.new.faults ≡ self.old.faults }
    {
        let step = self.steps.as_slice().get(self.done).copied();
        if self.done < self.steps.len() {
            self.done += 1;
        }
        step
    }
}

impl Tap for MemoryTap {
    ghost state = { memory_state_of };

    fn read(&mut self, room: &mut [u8]) -> Result<usize, TapFailed>
        ensures count { IfOk result (λ n. n ≤ length room.new) }
        ensures bytes { ReadConsumes (memory_state_of self.old).left (memory_state_of self.new).left
            result room.new }
        ensures cause { TapCause result (faults_of self.old) (faults_of self.new) }
        ensures answer { result ≡ answer_of (next_step (script_of self.old)) (length room.old)
            (left_of self.old) }
        ensures script { script_of self.new ≡ after_step (script_of self.old) }
    {
        match self.step() {
            None => Ok(self.tank.give(room.len(), room)),
            Some(TapStep::Gives(most)) => Ok(self.tank.give(most, room)),
            Some(TapStep::Fails) => {
                self.faults = self.faults.saturating_add(1);
                Err(TapFailed)
            }
        }
    }
}
