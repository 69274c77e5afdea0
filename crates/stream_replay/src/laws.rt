// The laws of parts that are runs one after another. Each function proves its clauses, and does
// nothing.
ghost use Rattle.std.specs.Prelude.{◌≡◌, ℕ, List};
ghost use Rattle.flow_model.specs.Run.{Ran};
ghost use Rattle.stream_replay.specs.InParts.{AreRunInParts, Given, IsLastReplay, Records};
ghost use Rattle.stream_replay.specs.InParts.{first_start};
ghost use Rattle.stream_replay.specs.Loose.{IsLoose};
ghost use Rattle.stream_replay.specs.Runs.{PartEnd, RunInTurn, records_in_turn, start_past_all};

/// Parts that are runs one after another have no first one that isn't (`apart`), and no parts have
/// two of these (`sole`).
pub fn parts_have_one_verdict()
    ensures apart { (given : Given) (earlier : List Records) (last : Records) (part : ℕ)
        → AreRunInParts given earlier last → IsLoose given earlier last part → ⊥ }
    ensures sole { (given : Given) (earlier : List Records) (last : Records) (first second : ℕ)
        → IsLoose given earlier last first → IsLoose given earlier last second
        → first ≡ second }
{}

/// Parts that were run in turn are runs one after another by their records too: these count just
/// the rows and the requests of each.
pub fn runs_are_told_in_parts()
    ensures { (given : Given) (ends : List PartEnd) (last : Records) (left : Ran)
        → RunInTurn given (first_start given) ends
        → IsLastReplay given (start_past_all (first_start given) ends) last left
        → AreRunInParts given (records_in_turn given (first_start given) ends) last }
{}
