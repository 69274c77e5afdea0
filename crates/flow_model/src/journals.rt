// Laws of journals. Each function proves its clauses, and does nothing.
ghost use Rattle.std.specs.Prelude.{◌≡◌, ◌↔◌, ◌++◌, ℕ, List};
ghost use Rattle.sink_journal.specs.declared.journal.Entry.{Entry as EntryIs};
ghost use Rattle.flow_model.specs.Law.{IsExecution, IsLawfulJournal, Progress, Duties, initial};
ghost use Rattle.flow_model.specs.Law.{progress_after};
ghost use Rattle.flow_model.specs.declared.topology.Lane.{Lane};
ghost use Rattle.flow_model.specs.SetupView.{SetupView, Worker};
ghost use Rattle.flow_model.specs.Points.{HasPoints, MayStandAtItsPlace};
ghost use Rattle.flow_model.specs.Replay.{StateView, after_all, items_sent, shown};

/// A replay goes on where an earlier one stopped, and what a longer journal shows is what its parts
/// show.
pub fn replays_go_on()
    ensures sent { (setup : SetupView) (who : Worker) (view : StateView) (lane : Lane)
        (xs ys : List EntryIs) → items_sent setup who view lane (xs ++ ys)
        ≡ items_sent setup who view lane xs
        ++ items_sent setup who (after_all setup who view xs) lane ys }
    ensures view { (setup : SetupView) (who : Worker) (view : StateView) (xs ys : List EntryIs)
        → after_all setup who view (xs ++ ys) ≡ after_all setup who (after_all setup who view xs)
        ys }
    ensures shown { (setup : SetupView) (lane : ℕ) (xs ys : List EntryIs)
        → shown setup lane (xs ++ ys) ≡ shown setup lane xs ++ shown setup lane ys }
{}

/// The law goes on where an earlier part stopped. So it may be read place by place.
pub fn the_law_goes_on()
    ensures execution { (duties : Duties) (progress : Progress) (xs ys : List EntryIs)
        → IsExecution duties progress (xs ++ ys) ↔ (IsExecution duties progress xs
        × IsExecution duties (progress_after progress xs) ys) }
    ensures progress { (progress : Progress) (xs ys : List EntryIs)
        → progress_after progress (xs ++ ys) ≡ progress_after (progress_after progress xs) ys }
    ensures places { (duties : Duties) (journal : List EntryIs)
        → IsExecution duties (initial duties) journal ↔ MayStandAtItsPlace duties journal }
{}

/// What the law means. A journal is lawful so far exactly where every lane that an entry names is
/// its worker's; it turns the first of the requests that cover the worker, each once, in rising
/// order and with none left out; directly before a turn stand its markers, one for each lane that
/// brings it, and no marker stands anywhere else; at a head no tuple that was fed under the next
/// request comes before its turn; and the ends stand together at the end, of each lane once, when
/// every request is turned.
pub fn lawful_journals_have_points()
    ensures { (duties : Duties) (journal : List EntryIs)
        → IsLawfulJournal duties journal ↔ HasPoints duties journal }
{}
