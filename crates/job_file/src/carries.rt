ghost use Rattle.std.specs.Prelude.{◌≡◌, Ok, Err, IfOk, IfErr};
ghost use Rattle.toml.specs.View.{items_view, view};
ghost use Rattle.job_file.specs.Carries.{below_of, carry_from, carry_named, carry_of, scale_of};

use crate::document::{items, text, whole};
use crate::fault::{FormFault, Part};
use keyed_state::Carry;
use toml::Value as Toml;

/// What becomes of the counts of a node: a word, or an array that begins with one.
pub(crate) fn read_carry(value: &Toml) -> Result<Carry, FormFault>
    ensures ok { IfOk result (λ carry. carry_of (view value.now) ≡ Ok carry) }
    ensures fault { IfErr result (λ fault. carry_of (view value.now) ≡ Err fault) }
{
    match value.as_str() {
        Some(word) => named_carry(word),
        None => carry_with(items(value, Part::Carry)?),
    }
}

fn named_carry(word: &str) -> Result<Carry, FormFault>
    ensures ok { IfOk result (λ carry. carry_named word.now ≡ Ok carry) }
    ensures fault { IfErr result (λ fault. carry_named word.now ≡ Err fault) }
{
    match word {
        "keep" => Ok(Carry::Keep),
        "reset" => Ok(Carry::Reset),
        _ => Err(FormFault::Shape(Part::Carry)),
    }
}

fn carry_with(parts: &[Toml]) -> Result<Carry, FormFault>
    ensures ok { IfOk result (λ carry. carry_from (items_view parts.now) ≡ Ok carry) }
    ensures fault { IfErr result (λ fault. carry_from (items_view parts.now) ≡ Err fault) }
{
    if parts.len() == 3 {
        return scale(&parts[0], &parts[1], &parts[2]);
    }
    if parts.len() == 2 {
        return below(&parts[0], &parts[1]);
    }
    Err(FormFault::Shape(Part::Carry))
}

fn scale(word: &Toml, by: &Toml, over: &Toml) -> Result<Carry, FormFault>
    ensures ok { IfOk result (λ carry. scale_of (view word.now) (view by.now) (view over.now)
        ≡ Ok carry) }
    ensures fault { IfErr result (λ fault. scale_of (view word.now) (view by.now) (view over.now)
        ≡ Err fault) }
{
    if text(word, Part::Carry)? != "scale" {
        return Err(FormFault::Shape(Part::Carry));
    }
    let by = whole(by, Part::Carry)?;
    let over = whole(over, Part::Carry)?;
    Ok(Carry::Scale(by, over))
}

fn below(word: &Toml, least: &Toml) -> Result<Carry, FormFault>
    ensures ok { IfOk result (λ carry. below_of (view word.now) (view least.now) ≡ Ok carry) }
    ensures fault { IfErr result (λ fault. below_of (view word.now) (view least.now) ≡ Err fault) }
{
    if text(word, Part::Carry)? != "below" {
        return Err(FormFault::Shape(Part::Carry));
    }
    Ok(Carry::DropBelow(whole(least, Part::Carry)?))
}
