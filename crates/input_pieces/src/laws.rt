// Laws of texts that are cut between records. Each function proves its clauses, and does nothing.
ghost use Rattle.std.specs.Prelude.{◌≡◌, ◌++◌, ◌∷◌, [], ℕ, List, All, map};
ghost use Rattle.std.specs.List.{concat, flat_map};
ghost use Rattle.csv.specs.Reading.{default_config, records};
ghost use Rattle.input_pieces.specs.Cut.{IsCut};
ghost use Rattle.input_pieces.specs.Gathering.{AreCalls, Call};

/// A text that is cut between two records is read piece by piece.
pub fn cut_texts_are_read_in_two()
    ensures { (first second : List ℕ) → IsCut default_config first
        → records default_config (first ++ second)
        ≡ records default_config first ++ records default_config second }
{}

/// The same of any number of pieces, of which the last may end anywhere.
pub fn cut_pieces_are_read_one_by_one()
    ensures { (pieces : List (List ℕ)) (last : List ℕ) → All (IsCut default_config) pieces
        → records default_config (concat pieces ++ last)
        ≡ flat_map (records default_config) pieces ++ records default_config last }
{}

/// What calls gave, and what is kept behind it, is what was kept before them and what they read.
pub fn pieces_join_to_what_was_read()
    ensures { (kept : List ℕ) (calls : List Call) (keeps : List ℕ) → AreCalls kept calls keeps
        → kept ++ concat (map (λ call. call.read) calls)
        ≡ concat (map (λ call. call.given) calls) ++ keeps }
{}
