// A worked run in two parts. Each function proves what its clauses say of it, and does nothing.
ghost use Rattle.std.specs.Prelude.{◌≡◌, ◌++◌, ◌∷◌, [], codes};
ghost use Rattle.flow_model.specs.Setup.{setup_view};
ghost use Rattle.flow_model.specs.declared.setup.Setup.{Setup};
ghost use Rattle.savepoint.specs.Parts.{joined};
ghost use Rattle.savepoint.specs.TwoHalves.{tally_setup, whole};
ghost use Rattle.stream_law.specs.LateRequest.{
  early_half,
  early_so_far,
  late_half,
  late_part,
  unlifted,
};
ghost use Rattle.stream_law.specs.Stream.{IsNextPart, IsRunSoFar, alerts_in};

/// A request that comes between two parts is issued before the second part's row. Both parts are
/// the run in which it came in time, and their alerts are its alerts.
pub fn late_requests_go_first()
    ensures early { IsRunSoFar early_so_far }
    ensures late { (setup : Setup) → setup_view setup ≡ tally_setup
        → IsNextPart early_so_far (late_part setup) }
    ensures joined { joined tally_setup early_half late_half ≡ whole }
    ensures alerts { alerts_in early_half ++ alerts_in late_half
        ≡ (codes "out" ∷ codes "1" ∷ codes "ann" ∷ codes "1" ∷ [])
        ∷ (codes "out" ∷ codes "2" ∷ codes "ann" ∷ codes "11" ∷ []) ∷ [] }
    ensures whole { alerts_in whole ≡ alerts_in early_half ++ alerts_in late_half }
{}

/// A part has no new request that waits for a row before the last of those so far.
pub fn unlifted_requests_are_no_part()
    ensures { (setup : Setup) → setup_view setup ≡ unlifted
        → IsNextPart early_so_far (late_part setup) → ⊥ }
{}
