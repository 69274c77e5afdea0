ghost use Rattle.std.specs.Prelude.{◌≡◌, [], map};
ghost use Rattle.jobs.specs.Job.{job_view};
ghost use Rattle.coordinator.specs.Starts.{AreNewOuts};
ghost use Rattle.test_actors.specs.Fed.{IsUnled};

use lane_core::{Lanes, Tx};
use operators::Job;
use tuple_trace::{Item, Tuple};

/// A lane from a source, which is fed by hand. No edge leads into the node where it begins.
#[derive(Drop)]
pub struct FedLane<L: Lanes> {
    end: L::Tx,
    ghost unled: { IsUnled (L.Tx.state end).origin },
}

impl<L: Lanes> FedLane<L> {
    /// Takes the last of the feeder's lanes, if it has one.
    pub fn last_of(job: &Job, feeder: Vec<L::Tx>) -> Option<FedLane<L>>
        requires { AreNewOuts (job_view job.now) (map L.Tx.state feeder.items) }
    {
        let mut feeder = feeder;
        let end = feeder.pop()?;
        Some(FedLane { end })
    }

    /// Puts a tuple that has visited no node. Returns whether the lane had room.
    pub fn feed(&mut self, need: &mut L::Need, tuple: Tuple) -> bool
        requires { tuple.trace ≡ [] }
    {
        self.end.put(need, Item::Carry(tuple)).is_ok()
    }

    /// Puts the end. Returns whether the lane had room.
    pub fn end(&mut self, need: &mut L::Need) -> bool {
        self.end.put(need, Item::Last).is_ok()
    }
}
