// The machine that reads CSV, as far as it tells where records begin.

ghost use Rattle.std.specs.Prelude.{◌≡◌, ◌<◌, ◌≤◌, if◌then◌else◌, length, take};
ghost use Rattle.csv.specs.Machine as Spec;
ghost use Rattle.csv.specs.Reading.{default_config};
ghost use Rattle.csv.specs.declared.parser.State.TheVariants as state;
ghost use Rattle.memchr.specs.Find.{Nowhere, Passes, is_byte};
ghost use Rattle.input_pieces.specs.Cut.{IsLastCut, is_start, state_after};
ghost use Rattle.input_pieces.specs.Places.{state_of};

use memchr::{memchr, memrchr};

/// How many bytes are looked at at once for whole lines without a quote. So what is looked at twice
/// is bounded, also where each line is blank or long.
const LOOK: usize = 512;

/// Where the machine stands in a record: a state of the machine of `csv`, as it reads by default.
#[derive(Clone, Copy)]
pub(crate) enum Place {
    StartRecord,
    StartField,
    InField,
    InQuoted,
    AfterQuote,
    AfterCr,
}

impl Place {
    /// Whether a record may begin here.
    pub(crate) fn is_start(self) -> bool
        ensures { result ≡ is_start (state_of self) }
    {
        match self {
            Place::StartRecord => true,
            Place::StartField => false,
            Place::InField => false,
            Place::InQuoted => false,
            Place::AfterQuote => false,
            Place::AfterCr => false,
        }
    }

    /// The place after one byte.
    pub(crate) fn after(self, byte: u8) -> Place
        ensures { state_of result ≡ (Spec.step default_config (state_of self) byte).0 }
    {
        match self {
            Place::StartRecord => start_record(byte),
            Place::StartField => start_field(byte),
            Place::InField => in_field(byte),
            Place::InQuoted => {
                if byte == b'"' {
                    Place::AfterQuote
                } else {
                    Place::InQuoted
                }
            }
            Place::AfterQuote => {
                if byte == b'"' {
                    Place::InQuoted
                } else {
                    in_field(byte)
                }
            }
            Place::AfterCr => start_record(byte),
        }
    }
}

// Behind the end of a record: line ends in a row make no record.
fn start_record(byte: u8) -> Place
    ensures { state_of result ≡ (Spec.start_record default_config byte).0 }
{
    if byte == b'\r' || byte == b'\n' {
        Place::StartRecord
    } else {
        start_field(byte)
    }
}

fn start_field(byte: u8) -> Place
    ensures { state_of result ≡ (Spec.start_field default_config byte).0 }
{
    if byte == b'"' {
        Place::InQuoted
    } else {
        in_field(byte)
    }
}

fn in_field(byte: u8) -> Place
    ensures { state_of result ≡ (Spec.in_field default_config byte).0 }
{
    if byte == b',' {
        Place::StartField
    } else if byte == b'\r' {
        Place::AfterCr
    } else if byte == b'\n' {
        Place::StartRecord
    } else {
        Place::InField
    }
}

/// What bytes leave of the machine.
#[derive(Drop)]
pub(crate) struct Scanned {
    /// The place after the last byte.
    pub(crate) place: Place,
    /// How many of the bytes stand before the last place where a record may begin, if there is one
    /// behind the first byte.
    pub(crate) cut: Option<usize>,
}

impl Scanned {
    // After one byte more, which ends at this place.
    fn and_byte(self, byte: u8, end: usize) -> Scanned
        ensures place { state_of result.place
            ≡ (Spec.step default_config (state_of self.place) byte).0 }
        ensures cut { result.cut
            ≡ (if is_start (state_of result.place) then Some end else self.cut) }
    {
        let Scanned { place, cut } = self;
        let place = place.after(byte);
        if place.is_start() {
            return Scanned {
                place,
                cut: Some(end),
            };
        }
        Scanned { place, cut }
    }
}

// How many of the first bytes are whole lines without a quote, if a record may begin here. Behind
// them a record may begin too, so the machine needn't look at each of them.
fn plain_lines(from: Place, bytes: &[u8]) -> usize
    ensures within { result ≤ length bytes.now }
    ensures start { 0 < result → state_after default_config (state_of from) (take result bytes.now)
        ≡ state.StartRecord }
{
    if !from.is_start() {
        return 0;
    }
    match memrchr(b'\n', &bytes[..quoteless(bytes)]) {
        Some(end) => end + 1,
        None => 0,
    }
}

// How many bytes stand before the first quote, of those that are looked at at once.
fn quoteless(bytes: &[u8]) -> usize
    ensures within { result ≤ length bytes.now }
    ensures none { Nowhere (Passes (is_byte default_config.quote) bytes.now) 0 result }
{
    let near = &bytes[..bytes.len().min(LOOK)];
    match memchr(b'"', near) {
        Some(quote) => quote,
        None => near.len(),
    }
}

/// Looks at these bytes once, from this place on.
pub(crate) fn scan(from: Place, bytes: &[u8]) -> Scanned
    ensures place { state_of result.place
        ≡ state_after default_config (state_of from) bytes.now }
    ensures cut { IsLastCut default_config (state_of from) bytes.now result.cut }
{
    let mut scan = Scanned {
        place: from,
        cut: None,
    };
    let mut i = 0;
    while i < bytes.len() {
        let plain = plain_lines(scan.place, &bytes[i..]);
        if plain > 0 {
            i += plain;
            scan = Scanned {
                place: Place::StartRecord,
                cut: Some(i),
            };
        } else {
            scan = scan.and_byte(bytes[i], i + 1);
            i += 1;
        }
    }
    scan
}
