// Worked parts. Each function proves what its clauses say of them and does nothing.
ghost use Rattle.std.specs.Prelude.{◌≡◌, ◌∷◌, [], Ok, Err, codes, pos};
ghost use Rattle.savepoint.specs.Parts.{AreParts, joined};
ghost use Rattle.savepoint.specs.SaveReading.{begin_in};
ghost use Rattle.savepoint.specs.declared.fault.SaveFault.TheVariants as fault;
ghost use Rattle.savepoint.specs.TwoHalves.{
  first_half,
  half_way,
  saved,
  saved_count,
  saved_head,
  second_half,
  second_to,
  tally_setup,
  two_named_rows,
  whole,
};

/// Two halves of a run, of which the second goes on with the first's count, are the whole run.
pub fn two_halves_are_parts()
    ensures parts { AreParts tally_setup two_named_rows 1 first_half second_half }
    ensures joined { joined tally_setup first_half second_half ≡ whole }
{}

/// The halves are no parts of a run if the second begins to count anew.
pub fn a_forgotten_count_is_no_part()
    ensures { AreParts tally_setup two_named_rows 1 first_half (second_to (pos 10)) → ⊥ }
{}

/// The records of the first half are read as where it ended.
///
/// A fault comes of another number of requests, a row past the last, a key that stands twice, a
/// place that is no number, a node that doesn't count, and no record at all.
pub fn saved_halves_are_read()
    ensures read { begin_in tally_setup 2
        (saved_head (codes "1") (codes "1") ∷ saved_count (codes "ann") (codes "1") ∷ [])
        ≡ Ok half_way }
    ensures requests { begin_in tally_setup 2 (saved_head (codes "1") (codes "0") ∷ [])
        ≡ Err (fault.Count 1) }
    ensures rows { begin_in tally_setup 2 (saved_head (codes "3") (codes "1") ∷ [])
        ≡ Err (fault.Past 3) }
    ensures twice { begin_in tally_setup 2
        (saved_head (codes "1") (codes "1")
        ∷ saved_count (codes "ann") (codes "1") ∷ saved_count (codes "ann") (codes "2") ∷ [])
        ≡ Err (fault.State 2) }
    ensures shape { begin_in tally_setup 2
        (saved_head (codes "1") (codes "0")
        ∷ saved (codes "tally") (codes "x") (codes "ann") (codes "1") ∷ [])
        ≡ Err (fault.Shape 1) }
    ensures node { begin_in tally_setup 2
        (saved_head (codes "1") (codes "1")
        ∷ saved (codes "out") (codes "0") (codes "ann") (codes "1") ∷ [])
        ≡ Err (fault.State 1) }
    ensures none { begin_in tally_setup 2 [] ≡ Err (fault.Shape 0) }
{}
