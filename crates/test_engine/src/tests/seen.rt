use flow_model::RunRecord;
use sink_journal::Entry;
use std::str;
use test_texts::{is_steady_audit, same_lines, times};

/// What a call is to leave.
#[derive(Clone, Copy)]
pub struct Wanted<'a> {
    pub status: u8,
    /// `None` if it isn't compared.
    pub printed: Option<&'a str>,
    pub alerts: Alerts<'a>,
    pub audit: Audit<'a>,
}

/// Status 0, and anything else.
pub const DONE: Wanted<'static> = Wanted {
    status: 0,
    printed: None,
    alerts: Alerts::Any,
    audit: Audit::Any,
};

/// What the stored alerts are to be.
#[derive(Clone, Copy)]
pub enum Alerts<'a> {
    Any,
    Text(&'a str),
    Bytes(&'a [u8]),
    /// The lines of this text, in any order.
    Lines(&'a [u8]),
    /// One line of each pair, once.
    OneOf(&'a [(&'a str, &'a str)]),
}

/// What the stored audit is to be.
#[derive(Clone, Copy)]
pub enum Audit<'a> {
    Any,
    /// It is an audit of the payments job that begins with `head`, and has `lines` lines.
    Steady { head: &'a str, lines: usize },
}

/// What is seen of a call.
#[derive(Clone, Copy)]
pub struct Seen {
    /// Whether it left what was wanted.
    pub is_wanted: bool,
    /// How many tuples each of workers 0 and 1 met before it turned a request, if it turned one.
    pub met: [Option<u64>; 2],
    /// Whether the journals of all workers are lawful.
    pub is_lawful: bool,
}

impl Seen {
    /// Whether the call left what was wanted, and worker 0 turned after `least` to `most` tuples.
    pub fn has_met(&self, least: u64, most: u64) -> bool {
        match self.met[0] {
            Some(met) => self.is_wanted && least <= met && met <= most,
            None => false,
        }
    }
}

/// Whether this is wanted to be printed.
pub fn is_printed(printed: &[u8], wanted: Option<&str>) -> bool {
    match wanted {
        Some(text) => printed == text.as_bytes(),
        None => true,
    }
}

/// Whether these alerts are wanted.
pub fn are_wanted(alerts: &[u8], wanted: Alerts<'_>) -> bool {
    match wanted {
        Alerts::Any => true,
        Alerts::Text(text) => alerts == text.as_bytes(),
        Alerts::Bytes(bytes) => alerts == bytes,
        Alerts::Lines(text) => have_lines(alerts, text),
        Alerts::OneOf(pairs) => have_one_of_each(alerts, pairs),
    }
}

fn have_lines(alerts: &[u8], text: &[u8]) -> bool {
    match (str::from_utf8(alerts), str::from_utf8(text)) {
        (Ok(alerts), Ok(text)) => same_lines(alerts, text),
        _ => false,
    }
}

fn have_one_of_each(alerts: &[u8], pairs: &[(&str, &str)]) -> bool {
    let Ok(alerts) = str::from_utf8(alerts) else {
        return false;
    };
    let mut well = true;
    for (one, other) in pairs {
        let found = (times(alerts, one), times(alerts, other));
        well &= found == (1, 0) || found == (0, 1);
    }
    well
}

/// Whether this audit is wanted.
pub fn is_audit(audit: &[u8], wanted: Audit<'_>) -> bool {
    match (str::from_utf8(audit), wanted) {
        (_, Audit::Any) => true,
        (Ok(audit), Audit::Steady { head, lines }) => {
            audit.lines().count() == lines && is_steady_audit(audit, head)
        }
        (Err(_), Audit::Steady { .. }) => false,
    }
}

/// How many tuples a worker met before it turned a request, if it turned one.
pub fn met_before_turn(ran: &Option<RunRecord>, worker: usize) -> Option<u64> {
    let Some(ran) = ran else {
        return None;
    };
    match ran.journals.as_slice().get(worker) {
        Some(journal) => met_in(journal.as_slice()),
        None => None,
    }
}

fn met_in(journal: &[Entry]) -> Option<u64> {
    let mut met = 0u64;
    for entry in journal {
        match entry {
            Entry::Met { .. } => met = met.saturating_add(1),
            Entry::Turned { .. } => return Some(met),
            Entry::Marked { .. } | Entry::Ended { .. } => {}
        }
    }
    None
}
