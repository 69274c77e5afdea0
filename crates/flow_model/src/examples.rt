// Worked runs. Each function proves what its clauses say of one, and does nothing.
ghost use Rattle.std.specs.Prelude.{◌≡◌, ℕ, ◌∷◌, [], Some, false, true, pos};
ghost use Rattle.std.specs.List.{flat_map};
ghost use Rattle.jobs.specs.Law.{IsLawful as IsLawfulJob};
ghost use Rattle.jobs.specs.Nodes.{AreFromSources};
ghost use Rattle.sink_journal.specs.declared.journal.Feed.TheVariants as feed;
ghost use Rattle.lane_core.specs.Steady.{IsSteady};
ghost use Rattle.tuple_trace.specs.Rows.{AreRows};
ghost use Rattle.tuple_trace.specs.declared.tuple.Item.TheVariants as item;
ghost use Rattle.tuple_trace.specs.declared.value.Value.TheVariants as value;
ghost use Rattle.versions.specs.Judged.{AreAccepted};
ghost use Rattle.flow_model.specs.Alone.{alone, table};
ghost use Rattle.flow_model.specs.Begin.{at_first};
ghost use Rattle.flow_model.specs.Feeding.{feed_from};
ghost use Rattle.flow_model.specs.FourPayments.{at_least, chain, filter_worker, four_payments};
ghost use Rattle.flow_model.specs.FourPayments.{four_ran, four_setup, late_big, row_of, short_ran};
ghost use Rattle.flow_model.specs.Fresh.{IsFresh, IsFreshBefore};
ghost use Rattle.flow_model.specs.Law.{IsFinished, IsLawfulJournal};
ghost use Rattle.flow_model.specs.OneTable.{HasNoCounts, IsOneTable};
ghost use Rattle.flow_model.specs.Planned.{IsPlanned};
ghost use Rattle.flow_model.specs.Run.{IsLawfulFrom, IsRun};
ghost use Rattle.flow_model.specs.Serial.{serial, funcs_after};
ghost use Rattle.flow_model.specs.SplitAbove.{exchanged_ran, split_landings, split_ran};
ghost use Rattle.flow_model.specs.SplitAbove.{split_setup, two_rows, two_ways};
ghost use Rattle.flow_model.specs.SteadyLanes.{mark, new_tuple, old_tuple, out_of_filter};
ghost use Rattle.flow_model.specs.SteadyLanes.{stray_tuple};
ghost use Rattle.flow_model.specs.TwoLanes.{joined, joining, parted, unmarked, unturned};
ghost use Rattle.flow_model.specs.Whole.{IsMetOnce, IsWhole, is_new, is_old};

/// Four payments, and a filter whose threshold falls after the second, are a run.
pub fn four_payments_are_a_run()
    ensures run { IsRun four_setup four_payments four_ran }
    ensures fresh { IsFresh 4 four_ran }
{}

/// In it the second payment is old at the request and the third is new, each is whole, and none
/// comes to a node twice.
pub fn four_payments_are_whole()
    ensures old { is_old four_ran 1 2 ≡ true }
    ensures new { is_new four_ran 1 3 ≡ true }
    ensures whole_old { IsWhole four_ran 1 2 }
    ensures whole_new { IsWhole four_ran 1 3 }
    ensures once { IsMetOnce four_ran 2 }
{}

/// With the functions that it met, the third payment makes by itself what came to the sink of it;
/// the first makes nothing.
pub fn payments_alone()
    ensures first { alone chain (table four_ran 1) (row_of 1 (pos 9999)) ≡ [] }
    ensures third { alone chain (table four_ran 3) (row_of 3 (pos 5000))
        ≡ record { sink = 2; row = 3; fields = value.Num (pos 5000) ∷ [] } ∷ [] }
{}

/// The order of the four payments and the request: the second payment comes before it, and the
/// third behind it. So the third meets the functions after the request.
pub fn payments_have_an_order()
    ensures second { serial four_ran 2 ≡ 0 }
    ensures third { serial four_ran 3 ≡ 1 }
    ensures before { funcs_after four_setup (serial four_ran 2) 1 ≡ table four_ran 2 1 }
    ensures behind { funcs_after four_setup (serial four_ran 3) 1 ≡ table four_ran 3 1 }
    ensures changed { funcs_after four_setup 1 1 ≡ Some (at_least (pos 5000)) }
{}

/// It is no run where the sink never met the third payment.
pub fn a_missed_payment_is_no_run()
    ensures { IsRun four_setup four_payments short_ran → ⊥ }
{}

/// The filter's journal isn't even lawful so far with the turn one entry later.
pub fn a_late_turn_is_unlawful()
    ensures { IsLawfulFrom four_setup (at_first four_setup) filter_worker late_big → ⊥ }
{}

/// The markers of a request stand together, one for each lane that brings it, directly before its
/// turn; and each due is turned before an end.
pub fn markers_stand_before_their_turn()
    ensures finished { IsFinished joining joined }
    ensures missing { IsLawfulJournal joining unmarked → ⊥ }
    ensures between { IsLawfulJournal joining parted → ⊥ }
    ensures unturned { IsLawfulJournal joining unturned → ⊥ }
{}

/// Requests are issued directly after the row that they wait for: at the front for row 0, after the
/// last for a later one, and in order.
pub fn requests_wait_for_their_rows()
    ensures front { feed_from 0 0 (0 ∷ []) 1 ≡ feed.Issued 1 ∷ feed.Fed 1 ∷ feed.Stopped ∷ [] }
    ensures end { feed_from 0 0 (99 ∷ []) 1 ≡ feed.Fed 1 ∷ feed.Issued 1 ∷ feed.Stopped ∷ [] }
    ensures both { feed_from 0 0 (1 ∷ 1 ∷ []) 2 ≡ feed.Fed 1 ∷ feed.Issued 1 ∷ feed.Issued 2
        ∷ feed.Fed 2 ∷ feed.Stopped ∷ [] }
    ensures later { feed_from 2 1 (1 ∷ 1 ∷ 2 ∷ 3 ∷ []) 3
        ≡ feed.Issued 2 ∷ feed.Issued 3 ∷ feed.Fed 3 ∷ feed.Issued 4 ∷ feed.Stopped ∷ [] }
{}

/// On a lane an old tuple stands before the marker and a new one behind it. It isn't steady with an
/// old one behind, a new one before, or a tuple that didn't come along the edges.
pub fn markers_part_old_from_new()
    ensures steady { IsSteady out_of_filter (old_tuple ∷ mark ∷ new_tuple ∷ item.Last ∷ []) }
    ensures old_behind { IsSteady out_of_filter (mark ∷ old_tuple ∷ []) → ⊥ }
    ensures new_before { IsSteady out_of_filter (new_tuple ∷ mark ∷ []) → ⊥ }
    ensures stray { IsSteady out_of_filter (stray_tuple ∷ []) → ⊥ }
{}

/// Two rows of two pieces each, which a filter sends two ways and a changed filter meets again, are
/// a run: the split is the head, and the markers of both ways are awaited where they meet. Both
/// pieces of the second row met the new function.
pub fn two_ways_are_a_run()
    ensures run { IsRun split_setup two_rows split_ran }
    ensures fresh { IsFresh 2 split_ran }
    ensures old { is_old split_ran 1 1 ≡ true }
    ensures new { is_new split_ran 1 2 ≡ true }
    ensures whole { IsWhole split_ran 1 2 }
    ensures once { IsMetOnce split_ran 5 }
    ensures alone { flat_map (λ row. alone two_ways (table split_ran row.tuple.row) row) two_rows
        ≡ split_landings }
{}

/// It is no run where one item of a lane is exchanged: a piece that the new function holds back, in
/// place of the one that it lets pass.
pub fn an_exchanged_item_is_no_run()
    ensures { IsRun split_setup two_rows exchanged_ran → ⊥ }
{}

/// The four payments meet every premise of the laws of runs: their job is lawful and counts
/// nothing, their request is accepted, its plan is the planner's, their rows are numbered and enter
/// by the source. So the laws hold of their run.
pub fn four_payments_keep_the_laws()
    ensures lawful { IsLawfulJob chain }
    ensures no_counts { HasNoCounts chain }
    ensures accepted { AreAccepted chain four_setup.requests }
    ensures planned { IsPlanned four_setup }
    ensures rows { AreRows four_payments }
    ensures sources { AreFromSources chain four_payments }
    ensures whole { (request row : ℕ) → IsWhole four_ran request row }
    ensures once { (node : ℕ) → IsMetOnce four_ran node }
    ensures fresh { IsFreshBefore 4 four_ran }
    ensures one_table { IsOneTable four_payments four_ran }
{}
