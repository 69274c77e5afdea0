// What an act does to hands, journal and waiting items. The caller has reserved the memory.
ghost use Rattle.std.specs.Prelude.{◌≡◌, ℕ, ◌+◌, ◌<◌, ◌≤◌, Some, slice_get, [], ◌∷◌, ◌++◌, length};
ghost use Rattle.std.specs.Prelude.{if◌then◌else◌};
ghost use Rattle.flow_dag.specs.Masks.{has};
ghost use Rattle.marker_align.specs.declared.held.Hand.TheVariants.{Empty, Holds};
ghost use Rattle.sink_journal.specs.declared.journal.Entry.TheVariants.{Marked, Met};
ghost use Rattle.tuple_trace.specs.declared.tuple.Item.TheVariants.{Carry, Mark, Last};
ghost use Rattle.tuple_trace.specs.declared.tuple.Tuple.{Tuple as TupleIs};
ghost use Rattle.flow_worker.specs.Pairs.{EachOne, EachPair};
ghost use Rattle.flow_worker.specs.Endpoints.{Appended, HasRoomFor, LaneInIs, LaneOutIs};
ghost use Rattle.flow_worker.specs.Steps.{HasTuple, all_emptied, emptied, ended_entries, laid_down};
ghost use Rattle.flow_worker.specs.Steps.{marked_entries};

use crate::lane_in::LaneIn;
use crate::lane_out::LaneOut;
use flow_dag::{MAX_EDGES, has_wide_bit};
use lane_core::Lanes;
use marker_align::{Due, Hand, Holder, LANE_SET_BITS, MAX_LANES_IN};
use sink_journal::Entry;
use tuple_trace::{Item, Reserved, Tuple};

fn is_in(lanes: u128, place: usize) -> bool
    requires { place < LANE_SET_BITS }
    ensures { result ≡ has lanes place }
{
    has_wide_bit(lanes, place as u32)
}

fn note_marker<L: Lanes>(
    lane: &mut LaneIn<L>,
    is_marked: bool,
    request: u64,
    journal: &mut Reserved<Entry>,
)
    requires { length journal.old.items < journal.old.memory }
    ensures lane { lane.new ≡ (if is_marked then record lane.old { hand = Empty } else lane.old) }
    ensures journal { journal.new.items ≡ journal.old.items
        ++ (if is_marked then Marked lane.old.number request ∷ [] else []) }
    ensures memory { (length journal.new.items ≤ length journal.old.items + 1)
        × (journal.new.memory ≡ journal.old.memory) }
{
    if is_marked {
        lane.clear();
        journal.push_reserved(Entry::Marked {
            lane: lane.number(),
            request,
        });
    }
}

/// Notes the markers of the due in the journal, place by place, and empties their hands.
pub fn note_markers<L: Lanes>(ins: &mut [LaneIn<L>], due: &Due, journal: &mut Reserved<Entry>)
    requires few { length ins.old ≤ MAX_LANES_IN }
    requires memory { length journal.old.items + length ins.old < journal.old.memory }
    ensures ins { ins.new ≡ emptied due.now.lanes 0 ins.old }
    ensures journal { journal.new.items ≡ journal.old.items
        ++ marked_entries due.now.lanes due.now.request 0 ins.old }
    ensures memory { length journal.new.items < journal.new.memory }
{
    for (i, lane) in ins.iter_mut().enumerate() {
        note_marker(lane, is_in(due.lanes, i), due.request, journal);
    }
}

fn push_marker<L: Lanes>(out: &mut LaneOut<L>, is_covered: bool, due: &Due)
    requires room { length out.old.waiting < out.old.memory }
    ensures { out.new ≡ record out.old {
      waiting = out.old.waiting
          ++ (if is_covered then Mark due.now.request due.now.cover ∷ [] else []);
    } }
{
    if is_covered {
        out.push(Item::Mark {
            request: due.request,
            cover: due.cover,
        });
    }
}

/// Adds the marker of the due to the waiting items of each lane whose edge is in the mask.
pub fn push_markers<L: Lanes>(outs: &mut [LaneOut<L>], edges: u128, due: &Due)
    requires room { EachOne (HasRoomFor 1) outs.old }
    requires edges { EachOne (λ (out : LaneOutIs). out.edge < MAX_EDGES) outs.old }
    ensures { EachPair (Appended (λ out. if has edges out.edge
        then Mark due.now.request due.now.cover ∷ [] else [])) outs.old outs.new }
{
    for out in outs {
        let is_covered = is_in(edges, out.edge() as usize);
        push_marker(out, is_covered, due);
    }
}

/// Notes the end of each lane in, and empties its hand.
pub fn note_ends<L: Lanes>(ins: &mut [LaneIn<L>], journal: &mut Reserved<Entry>)
    requires memory { length journal.old.items + length ins.old ≤ journal.old.memory }
    ensures ins { ins.new ≡ all_emptied ins.old }
    ensures journal { journal.new.items ≡ journal.old.items ++ ended_entries ins.old }
{
    for lane in ins {
        lane.clear();
        journal.push_reserved(Entry::Ended {
            lane: lane.number(),
        });
    }
}

/// Adds `Last` to the waiting items of each lane out.
pub fn push_ends<L: Lanes>(outs: &mut [LaneOut<L>])
    requires room { EachOne (HasRoomFor 1) outs.old }
    ensures { EachPair (Appended (λ out. Last ∷ [])) outs.old outs.new }
{
    for out in outs {
        out.push(Item::Last);
    }
}

/// Returns the tuple in the hand at a place.
pub fn tuple_at<L: Lanes>(ins: &[LaneIn<L>], place: u32) -> &Tuple
    requires within { place < length ins.now }
    requires held { HasTuple ins.now place }
    ensures { (a : LaneInIs) → slice_get ins.now place ≡ Some a
        → a.hand ≡ Holds (Carry result.now) }
{
    match ins[place as usize].hand() {
        Hand::Holds(Item::Carry(tuple)) => tuple,
        _ => unreachable!(),
    }
}

/// Notes the tuple in the hand at a place in the journal, and empties the hand. It is moved from
/// the hand into the entry, by way of no tuple of its own.
pub fn note_tuple<L: Lanes>(ins: &mut [LaneIn<L>], place: u32, journal: &mut Reserved<Entry>)
    requires within { place < length ins.old }
    requires held { HasTuple ins.old place }
    requires memory { length journal.old.items < journal.old.memory }
    ensures ins { ins.new ≡ laid_down place ins.old }
    ensures journal { (a : LaneInIs) (t : TupleIs) → slice_get ins.old place ≡ Some a
        → a.hand ≡ Holds (Carry t)
        → journal.new.items ≡ journal.old.items ++ Met a.number t ∷ [] }
{
    let lane = &mut ins[place as usize];
    let number = lane.number();
    match lane.empty() {
        Hand::Holds(Item::Carry(tuple)) => journal.push_reserved(Entry::Met {
            lane: number,
            tuple,
        }),
        _ => unreachable!(),
    }
}
