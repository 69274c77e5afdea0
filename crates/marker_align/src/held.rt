ghost use Rattle.std.specs.Prelude.{◌≡◌};
ghost use Rattle.marker_align.specs.Hands.{is_issued as is_issued_of, is_last as is_last_of};
ghost use Rattle.marker_align.specs.Hands.{is_marker as is_marker_of, is_tuple as is_tuple_of};
ghost use Rattle.marker_align.specs.declared.held.Hand.{Hand};

use crate::Due;
use tuple_trace::{Item, Items};

/// What a worker took from a lane and has not acted on yet.
#[derive(Debug, Drop)]
pub enum Hand {
    Empty,
    Holds(Item),
}

/// The hands of a worker, one for each place: its lanes in by rising number.
pub type Hands = Items<Hand>;

/// What has a hand, as a worker's end of a lane that is kept beside its hand.
pub trait Holder {
    // What it holds.
    ghost hand: { Self → Hand };

    fn hand(&self) -> &Hand
        ensures { result.now ≡ hand self.now };
}

impl Holder for Hand {
    ghost hand = { λ hand. hand };

    fn hand(&self) -> &Hand {
        self
    }
}

impl Hand {
    /// Whether it holds a tuple whose row was fed under this request or a later one.
    pub(crate) fn is_issued(&self, request: u64) -> bool
        ensures { result ≡ is_issued_of request self.now }
    {
        match self {
            Hand::Holds(Item::Carry(tuple)) => tuple.issued >= request,
            _ => false,
        }
    }

    /// Whether it holds the marker of the due's request with the due's cover.
    pub(crate) fn is_marker(&self, due: &Due) -> bool
        ensures { result ≡ is_marker_of due.now.request due.now.cover self.now }
    {
        match self {
            Hand::Holds(Item::Mark { request, cover }) => {
                *request == due.request && *cover == due.cover
            }
            _ => false,
        }
    }

    pub(crate) fn is_tuple(&self) -> bool
        ensures { result ≡ is_tuple_of self.now }
    {
        matches!(self, Hand::Holds(Item::Carry(_)))
    }

    pub(crate) fn is_last(&self) -> bool
        ensures { result ≡ is_last_of self.now }
    {
        matches!(self, Hand::Holds(Item::Last))
    }
}
