ghost use Rattle.std.specs.Prelude.{◌≡◌, option_copied};
ghost use Rattle.tuple_trace.specs.Values.{as_number, as_text};

use crate::Txt;

/// What a column of a tuple holds. Amounts are numbers of cents.
#[derive(Clone, Debug, Drop)]
pub enum Value {
    Num(i64),
    Text(Txt),
}

/// A field read as a number: 0 where it is none, or where there is no field.
pub fn number_in(field: Option<&Value>) -> i64
    ensures { result ≡ as_number (option_copied field.entry) }
{
    match field {
        Some(Value::Num(number)) => *number,
        _ => 0,
    }
}

/// A field read as a text: empty where it is none, or where there is no field.
pub fn text_in(field: Option<&Value>) -> &[u8]
    ensures { result.now ≡ as_text (option_copied field.entry) }
{
    match field {
        Some(Value::Text(text)) => text.as_slice(),
        _ => &[],
    }
}
