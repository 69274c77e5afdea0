// Texts that are cut.
ghost use Rattle.std.specs.Prelude.{◌≡◌, ◌∷◌, ◌==◌, option_copied, position};
ghost use Rattle.operators.specs.Pieces.{pieces, pieces_left};

/// The first piece of a text that is cut at every byte `by`, and what is left behind that byte, if
/// there is one.
pub fn cut(text: &[u8], by: u8) -> (&[u8], Option<&[u8]>)
    ensures { pieces by text.now ≡ result.0.now ∷ pieces_left by (option_copied result.1) }
{
    match place_of(text, by) {
        Some(at) => (&text[..at], Some(&text[at + 1..])),
        None => (text, None),
    }
}

fn place_of(text: &[u8], by: u8) -> Option<usize>
    ensures { result ≡ position (λ b. b == by) text.now }
{
    text.iter().position(|byte| *byte == by)
}
