//! What the journals of a run have to show of each request, read without the engine.
use flow_model::RunRecord;
use sink_journal::Entry;

/// Whether each worker turned each accepted request lawfully. Lanes have numbers below 128.
///
/// - A worker turns a request once at most, and takes markers of the request only before that.
/// - After it took a marker from a lane, it takes nothing more from that lane until it has turned.
/// - A worker of a head turns without markers. Before that it processes only tuples whose rows were
///   fed before the request.
pub fn is_lawful(ran: &Option<RunRecord>) -> bool {
    let Some(ran) = ran else {
        return false;
    };
    let requests = ran.setup.request_count() as u64;
    let mut lawful = true;
    for journal in &ran.journals {
        lawful &= is_lawful_for_each(journal.as_slice(), requests);
    }
    lawful
}

fn is_lawful_for_each(journal: &[Entry], requests: u64) -> bool {
    let mut lawful = true;
    for before in 0..requests {
        lawful &= is_lawful_for(journal, before.wrapping_add(1));
    }
    lawful
}

fn is_lawful_for(journal: &[Entry], request: u64) -> bool {
    let mut shown = Shown::nothing_of(request);
    for entry in journal {
        shown = shown.after(entry);
    }
    shown.is_lawful()
}

// What a journal has shown of a request so far.
#[derive(Clone, Copy)]
struct Shown {
    request: u64,
    // The mask of the lanes whose marker was taken.
    marked: u128,
    turned: bool,
    // Whether a tuple was processed before the turn, though its row was fed after the request.
    met_late: bool,
    lawful: bool,
}

impl Shown {
    fn nothing_of(request: u64) -> Shown {
        Shown {
            request,
            marked: 0,
            turned: false,
            met_late: false,
            lawful: true,
        }
    }

    fn is_lawful(self) -> bool {
        let is_head = self.marked == 0;
        self.lawful && (self.turned || is_head) && !(self.turned && is_head && self.met_late)
    }

    fn after(self, entry: &Entry) -> Shown {
        match entry {
            Entry::Met { lane, tuple } => self.with_item_of(*lane).with_tuple_of(tuple.issued),
            Entry::Ended { lane } => self.with_item_of(*lane),
            Entry::Marked { lane, request } => {
                self.with_item_of(*lane).with_marker_of(*lane, *request)
            }
            Entry::Turned { request } => self.with_turn_of(*request),
        }
    }

    fn with_item_of(self, lane: u32) -> Shown {
        let waits = !self.turned && self.marked & bit(lane) != 0;
        Shown {
            lawful: self.lawful && !waits,
            ..self
        }
    }

    fn with_tuple_of(self, issued: u64) -> Shown {
        let late = !self.turned && issued >= self.request;
        Shown {
            met_late: self.met_late || late,
            ..self
        }
    }

    fn with_marker_of(self, lane: u32, request: u64) -> Shown {
        if request != self.request {
            return self;
        }
        Shown {
            marked: self.marked | bit(lane),
            lawful: self.lawful && !self.turned,
            ..self
        }
    }

    fn with_turn_of(self, request: u64) -> Shown {
        if request != self.request {
            return self;
        }
        Shown {
            lawful: self.lawful && !self.turned,
            turned: true,
            ..self
        }
    }
}

fn bit(lane: u32) -> u128 {
    1u128.wrapping_shl(lane)
}
