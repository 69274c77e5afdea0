use std::sync::atomic::{AtomicBool, AtomicU64, Ordering};
use tuple_trace::Gate;

/// A gate that counts the calls by node, and sees whether each call of a node's one worker has the
/// number of the earlier calls.
#[derive(Drop)]
pub struct Watch {
    calls: [AtomicU64; 4],
    wrong: AtomicBool,
}

impl Watch {
    pub fn new() -> Watch {
        Watch {
            calls: [
                AtomicU64::new(0),
                AtomicU64::new(0),
                AtomicU64::new(0),
                AtomicU64::new(0),
            ],
            wrong: AtomicBool::new(false),
        }
    }

    /// Whether the calls by node are these, each with its right number.
    pub fn saw(&self, wanted: [u64; 4]) -> bool {
        let mut same = !self.wrong.load(Ordering::SeqCst);
        for node in 0..4 {
            same &= self.calls[node].load(Ordering::SeqCst) == wanted[node];
        }
        same
    }
}

impl Gate for Watch {
    fn pass(&self, node: u32, worker: u32, place: u64) {
        let is_right = node < 4
            && worker == 0
            && self.calls[node as usize].fetch_add(1, Ordering::SeqCst) == place;
        if !is_right {
            self.wrong.store(true, Ordering::SeqCst);
        }
    }

    fn issued(&self, _request: u64) {}
}
