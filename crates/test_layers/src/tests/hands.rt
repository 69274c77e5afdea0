// Tests of marker_align: what a worker does next.
use marker_align::{Act, Due, Hand, Hands, decide};
use std::alloc::Global;
use tuple_trace::{Births, Fields, Item, Tuple, Visits};

fn tuple(alloc: Global) -> Hand {
    Hand::Holds(Item::Carry(Tuple {
        row: 1,
        birth: Births::new(alloc),
        issued: 0,
        fields: Fields::new(alloc),
        trace: Visits::new(alloc),
    }))
}

fn marker() -> Hand {
    Hand::Holds(Item::Mark {
        request: 1,
        cover: 3,
    })
}

fn last() -> Hand {
    Hand::Holds(Item::Last)
}

// Two places, both on lanes of the due.
const DUE: Due = Due {
    request: 1,
    head: false,
    lanes: 3,
    cover: 3,
};

// What a worker with these two hands does. None if memory runs out.
fn decided(alloc: Global, one: Hand, other: Hand, due: Option<&Due>) -> Option<Act> {
    match vec![in alloc; one, other] {
        Ok(hands) => Some(decide(&Hands::from_vec(hands), due, false, 0)),
        Err(_) => None,
    }
}

#[test]
fn decisions(rt: HostRuntime) {
    let alloc = rt.alloc();
    let beside = decided(alloc, marker(), tuple(alloc), Some(&DUE));
    assert_eq!(rt; beside, Some(Act::Process(1)));
    let aligned = decided(alloc, marker(), marker(), Some(&DUE));
    assert_eq!(rt; aligned, Some(Act::Turn(1)));
    let waiting = decided(alloc, marker(), Hand::Empty, Some(&DUE));
    assert_eq!(rt; waiting, Some(Act::Nothing));
    assert_eq!(rt; decided(alloc, last(), last(), None), Some(Act::Close));
}
