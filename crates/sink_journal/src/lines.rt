ghost use Rattle.std.specs.Prelude.{◌≡◌, ◌+◌, ◌<◌, ◌≤◌, ◌++◌, ◌∷◌, [], false, OnOk, decimal, drop};
ghost use Rattle.std.specs.Fmt.{signed_decimal};
ghost use Rattle.csv.specs.Writing.{default_writer, escaped, field_text, fields_text};
ghost use Rattle.csv.specs.Writing.{needs_quotes, quoted};
ghost use Rattle.sink_journal.specs.Audit.{code_word, dotted, shown};
ghost use Rattle.sink_journal.specs.Printed.{cents_of};

use itoa::{Buffer, write_digits};
use std::alloc::Global;
use std::marker::Model;
use tuple_trace::{Bytes, NoMemory};

/// What stands between the whole part of an amount and its cents, and between the numbers of a
/// birth.
const POINT: u8 = b'.';

// How many bytes are spelled on the stack before they are appended.
const ROOM: usize = 96;

/// A text of CSV records that grows field by field, each as the default writer of `csv` writes it.
/// Contracts see its bytes.
#[derive(Drop)]
pub(crate) struct Lines {
    text: Bytes,
}

impl Model for Lines {
    ghost use Rattle.std.specs.Prelude.{List, ℕ};

    ghost Value = { List ℕ };

    ghost view = { λ a. a.text };
}

impl Lines {
    /// An empty text, with memory for `bytes` bytes if there is that much.
    pub(crate) fn with_room(alloc: Global, bytes: usize) -> Self
        ensures { result ≡ [] }
    {
        let text = match Vec::with_capacity(alloc, bytes) {
            Ok(text) => Bytes::from_vec(text),
            Err(_) => Bytes::new(alloc),
        };
        Lines { text }
    }

    /// The text.
    pub(crate) fn into_text(self) -> Bytes
        ensures { result ≡ self }
    {
        self.text
    }

    /// Appends bytes as they are.
    pub(crate) fn add(&mut self, bytes: &[u8]) -> Result<(), NoMemory>
        ensures { OnOk result (self.new ≡ self.old ++ bytes.now) }
    {
        self.text.extend_from_slice(bytes)
    }

    /// Ends a record.
    pub(crate) fn end(&mut self) -> Result<(), NoMemory>
        ensures { OnOk result (self.new ≡ self.old ++ 10 ∷ []) }
    {
        self.text.push(b'\n')
    }

    /// Appends a comma, and a field of any text.
    pub(crate) fn add_text(&mut self, field: &[u8]) -> Result<(), NoMemory>
        ensures { OnOk result (self.new ≡
            self.old ++ fields_text default_writer (field.now ∷ [])) }
    {
        self.text.push(b',')?;
        self.add_first(field)
    }

    /// Appends a field of any text, which begins a record.
    pub(crate) fn add_first(&mut self, field: &[u8]) -> Result<(), NoMemory>
        ensures { OnOk result (self.new ≡ self.old ++ field_text default_writer field.now) }
    {
        if asks_for_quotes(field) {
            return self.add_quoted(field);
        }
        self.text.extend_from_slice(field)
    }

    // Appends a field between quotes. Each quote in it is written twice.
    fn add_quoted(&mut self, field: &[u8]) -> Result<(), NoMemory>
        ensures { OnOk result (self.new ≡ self.old ++ quoted default_writer field.now) }
    {
        self.text.push(b'"')?;
        for byte in field {
            self.add_escaped(*byte)?;
        }
        self.text.push(b'"')
    }

    fn add_escaped(&mut self, byte: u8) -> Result<(), NoMemory>
        ensures { OnOk result (self.new ≡ self.old ++ escaped default_writer (byte ∷ [])) }
    {
        if byte == b'"' {
            return self.text.extend_from_slice(b"\"\"");
        }
        self.text.push(byte)
    }

    /// Appends a comma, and a field with the digits of a number.
    pub(crate) fn add_number(&mut self, number: u64) -> Result<(), NoMemory>
        ensures { OnOk result (self.new ≡
            self.old ++ fields_text default_writer (decimal number ∷ [])) }
    {
        self.text.push(b',')?;
        self.spell(number)
    }

    /// Appends a comma, and the digits of a number if there is one.
    pub(crate) fn add_shown(&mut self, number: Option<u64>) -> Result<(), NoMemory>
        ensures { OnOk result (self.new ≡
            self.old ++ fields_text default_writer (shown number ∷ [])) }
    {
        match number {
            Some(number) => self.add_number(number),
            None => self.add(b","),
        }
    }

    /// Appends a comma, and a field with the digits of a number that may be below 0.
    pub(crate) fn add_signed(&mut self, number: i64) -> Result<(), NoMemory>
        ensures { OnOk result (self.new ≡
            self.old ++ fields_text default_writer (signed_decimal number ∷ [])) }
    {
        self.text.push(b',')?;
        let mut digits = Buffer::new();
        self.text
            .extend_from_slice(digits.format(number).as_bytes())
    }

    /// Appends a comma, and a field with an amount of cents: an optional `-`, the whole part, a
    /// point and two digits.
    pub(crate) fn add_cents(&mut self, amount: i64) -> Result<(), NoMemory>
        ensures { OnOk result (self.new ≡
            self.old ++ fields_text default_writer (cents_of amount ∷ [])) }
    {
        self.text.push(b',')?;
        self.spell_cents(amount)
    }

    fn spell_cents(&mut self, amount: i64) -> Result<(), NoMemory>
        ensures { OnOk result (self.new ≡ self.old ++ cents_of amount) }
    {
        let size = amount.unsigned_abs();
        if amount < 0 {
            self.text.push(b'-')?;
        }
        self.spell(size / 100)?;
        self.text.push(POINT)?;
        self.text.push(digit(size / 10 % 10))?;
        self.text.push(digit(size % 10))
    }

    /// Appends a comma, and a field with the code of a refused request.
    pub(crate) fn add_code(&mut self, code: u8) -> Result<(), NoMemory>
        ensures { OnOk result (self.new ≡
            self.old ++ fields_text default_writer (code_word code ∷ [])) }
    {
        self.text.extend_from_slice(b",Q")?;
        self.spell(code.into())
    }

    /// Appends a comma, and a field with these numbers and dots between them.
    pub(crate) fn add_dotted(&mut self, numbers: &[u32]) -> Result<(), NoMemory>
        ensures { OnOk result (self.new ≡
            self.old ++ fields_text default_writer (dotted numbers.now ∷ [])) }
    {
        self.text.push(b',')?;
        self.spell_dotted(numbers)
    }

    fn spell_dotted(&mut self, numbers: &[u32]) -> Result<(), NoMemory>
        ensures { OnOk result (self.new ≡ self.old ++ dotted numbers.now) }
    {
        let Some((first, later)) = numbers.split_first() else {
            return Ok(());
        };
        self.spell((*first).into())?;
        for number in later {
            self.text.push(POINT)?;
            self.spell((*number).into())?;
        }
        Ok(())
    }

    /// Appends a front, a field with the digits of a number, an empty field, and the record's end.
    pub(crate) fn end_numbered(&mut self, front: &[u8], number: u64) -> Result<(), NoMemory>
        ensures { OnOk result (self.new ≡ self.old ++ (front.now
            ++ (fields_text default_writer (decimal number ∷ []) ++ 44 ∷ 10 ∷ []))) }
    {
        let mut ending = [b'\n'; ROOM];
        ending[ROOM - 2] = b',';
        let at = put_number(&mut ending, ROOM - 2, number);
        self.end_by(front, &mut ending, at)
    }

    /// The same, with a lane's number before the number.
    pub(crate) fn end_laned(&mut self, front: &[u8], lane: u64, number: u64) -> Result<(), NoMemory>
        ensures { OnOk result (self.new ≡ self.old ++ (front.now
            ++ (fields_text default_writer (decimal lane ∷ [])
            ++ (fields_text default_writer (decimal number ∷ []) ++ 44 ∷ 10 ∷ [])))) }
    {
        let mut ending = [b'\n'; ROOM];
        ending[ROOM - 2] = b',';
        let at = put_number(&mut ending, ROOM - 2, number);
        let at = put_number(&mut ending, at, lane);
        self.end_by(front, &mut ending, at)
    }

    /// Appends a front, which begins a record, and a field with the digits of a number.
    pub(crate) fn begin_numbered(&mut self, front: &[u8], number: u64) -> Result<(), NoMemory>
        ensures { OnOk result (self.new ≡
            self.old ++ (front.now ++ fields_text default_writer (decimal number ∷ []))) }
    {
        let mut spelled = [0; ROOM];
        let at = put_number(&mut spelled, ROOM, number);
        self.end_by(front, &mut spelled, at)
    }

    // Appends a front, and then what `ending` has from a place on. A front that fits before that
    // place is put there, so that both are appended as one.
    #[inline]
    fn end_by(&mut self, front: &[u8], ending: &mut [u8; ROOM], at: usize) -> Result<(), NoMemory>
        requires { at ≤ 96 }
        ensures { OnOk result (self.new ≡ self.old ++ (front.now ++ drop at ending.old)) }
    {
        if front.len() > at {
            self.text.extend_from_slice(front)?;
            return self.text.extend_from_slice(&ending[at..]);
        }
        let start = at - front.len();
        ending[start..at].copy_from_slice(front);
        self.text.extend_from_slice(&ending[start..])
    }

    fn spell(&mut self, number: u64) -> Result<(), NoMemory>
        ensures { OnOk result (self.new ≡ self.old ++ decimal number) }
    {
        if number < 10 {
            return self.text.push(digit(number));
        }
        let mut digits = Buffer::new();
        self.text
            .extend_from_slice(digits.format(number).as_bytes())
    }
}

// Whether a field has a byte that the default writer puts between quotes.
fn asks_for_quotes(field: &[u8]) -> bool
    ensures { result ≡ needs_quotes default_writer field.now }
{
    field
        .iter()
        .any(|byte| matches!(*byte, b',' | b'"' | b'\r' | b'\n'))
}

// Puts a comma and the digits of a number before the place `at`. Answers where they begin.
#[inline]
fn put_number(text: &mut [u8; ROOM], at: usize, number: u64) -> usize
    requires { (21 ≤ at) × (at ≤ 96) }
    ensures start { (result ≤ at) × (at ≤ result + 21) }
    ensures text { drop result text.new ≡
        fields_text default_writer (decimal number ∷ []) ++ drop at text.old }
{
    let start = write_digits(number, text, at);
    text[start - 1] = b',';
    start - 1
}

fn digit(number: u64) -> u8
    requires { number < 10 }
    ensures { result ∷ [] ≡ decimal number }
{
    b'0' + number as u8
}
