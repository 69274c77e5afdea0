ghost use Rattle.std.specs.Prelude.{◌≡◌, ◌≢◌, ◌≤◌, ◌<◌, ◌++◌, [], false, true, drop, length, take};
ghost use Rattle.std.specs.Prelude.{Ok, Err, None, IfOk, IfSome, OnErr, OnOk};
ghost use Rattle.std.specs.Io.KnownBytes.{IsAtEnd};
ghost use Rattle.csv.specs.Reading.{default_config};
ghost use Rattle.csv.specs.declared.parser.State.TheVariants as State;
ghost use Rattle.input_pieces.specs.Cut.{IsCut, IsUncut, state_after};
ghost use Rattle.input_pieces.specs.Places.{state_of};
ghost use Rattle.input_pieces.specs.declared.limits.TheConstants.{MAX_RECORD};

use crate::limits::{MAX_RECORD, READ_SIZE};
use crate::place::{Place, Scanned, scan};
use crate::reading::read_behind;
use crate::{PieceFault, Tap};
use std::alloc::Global;
use std::mem;
use tuple_trace::{Bytes, NoMemory};

/// What was read of an input and not given yet. It gives pieces that are cut between records.
///
/// A new one keeps nothing. It has to read from the same tap at each call.
#[derive(Drop)]
pub struct Pieces {
    alloc: Global,
    kept: Vec<u8>,
    /// Where the machine stands behind what is kept.
    place: Place,
    /// How many of the bytes that are kept stand before the last place where a record may begin.
    ready: usize,
    over: bool,
    ghost placed: { state_of place ≡ state_after default_config State.StartRecord kept.items },
    ghost within: { ready ≤ length kept.items },
    ghost cut: { IsCut default_config (take ready kept.items) },
    ghost uncut: { IsUncut default_config (drop ready kept.items) },
    ghost short: { length kept.items ≤ MAX_RECORD },
}

impl Pieces {
    ghost use Rattle.input_pieces.specs.Gathering.{Gathers, PieceCause, given_by, is_over, kept_of};

    /// Nothing is read yet. Takes no memory.
    pub fn new(alloc: Global) -> Self
        ensures kept { kept_of result ≡ [] }
        ensures over { is_over result ≡ false }
    {
        Pieces {
            alloc,
            kept: Vec::new(alloc),
            place: Place::StartRecord,
            ready: 0,
            over: false,
        }
    }

    /// The bytes that were read and not given yet, at most 1,048,576.
    pub fn kept(&self) -> &[u8]
        ensures kept { result.now ≡ kept_of self.now }
        ensures short { length result.now ≤ MAX_RECORD }
    {
        self.kept.as_slice()
    }

    /// Whether the input has ended.
    pub fn is_over(&self) -> bool
        ensures { result ≡ is_over self.now }
    {
        self.over
    }

    /// Reads until a record is whole, and returns what came up to the last place where a record may
    /// begin. At the end of the input the last piece has all that is left, and then there is none.
    ///
    /// It reads once if that read brings the end of a record. Once the input has ended it reads no
    /// more. No byte is looked at twice. A piece has 1 to 1,048,576 bytes.
    pub fn next_piece<T: Tap>(&mut self, tap: &mut T) -> Result<Option<Bytes>, PieceFault>
        ensures gathered { Gathers (T.state tap.old).left (T.state tap.new).left
            (kept_of self.old) (given_by result) (kept_of self.new) }
        ensures some { IfOk result (λ given. IfSome given (λ piece.
            (0 < length piece) × (length piece ≤ MAX_RECORD))) }
        ensures cut { is_over self.new ≡ false → IsCut default_config (given_by result) }
        ensures longest { OnOk result (IsUncut default_config (kept_of self.new)) }
        ensures long { result ≡ Err PieceFault.Long
            → (length (kept_of self.new) ≡ MAX_RECORD) × IsUncut default_config (kept_of self.new) }
        ensures none { result ≡ Ok None → is_over self.new ≡ true }
        ensures open { OnErr result (is_over self.new ≡ false) }
        ensures end { is_over self.old ≡ false → is_over self.new ≡ true
            → IsAtEnd (T.state tap.new).left }
        ensures all { is_over self.new ≡ true → kept_of self.new ≡ [] }
        ensures over { is_over self.old ≡ true
            → (is_over self.new ≡ true) × (T.state tap.new ≡ T.state tap.old) }
        ensures cause { PieceCause result (T.state tap.old).faults (T.state tap.new).faults }
    {
        while self.ready == 0 && !self.over {
            if self.kept.len() >= MAX_RECORD {
                return Err(PieceFault::Long);
            }
            self.read_once(tap)?;
        }
        if self.over {
            return Ok(self.take_all());
        }
        Ok(Some(self.take_ready()?))
    }

    // Reads once, and looks at what came. If nothing came, the input is over.
    fn read_once<T: Tap>(&mut self, tap: &mut T) -> Result<(), PieceFault>
        requires open { self.old.over ≡ false }
        requires unready { self.old.ready ≡ 0 }
        requires room { length (kept_of self.old) < MAX_RECORD }
        ensures gathered { Gathers (T.state tap.old).left (T.state tap.new).left
            (kept_of self.old) [] (kept_of self.new) }
        ensures end { self.new.over ≡ true → IsAtEnd (T.state tap.new).left }
        ensures more { OnOk result (self.new.over ≡ false
            → length (kept_of self.old) < length (kept_of self.new)) }
        ensures err { OnErr result (self.new.over ≡ false) }
        ensures same { OnErr result (self.new.ready ≡ 0) }
        ensures named { result ≢ Err PieceFault.Long }
        ensures cause { PieceCause result (T.state tap.old).faults (T.state tap.new).faults }
    {
        let from = self.kept.len();
        let most = READ_SIZE.min(MAX_RECORD - from);
        let count = read_behind(tap, &mut self.kept, most)?;
        if count == 0 {
            self.over = true;
            return Ok(());
        }
        let Scanned { place, cut } = scan(self.place, &self.kept.as_slice()[from..]);
        self.place = place;
        match cut {
            Some(cut) => self.ready = from + cut,
            None => {}
        }
        Ok(())
    }

    // Gives what is kept up to the last place where a record may begin.
    fn take_ready(&mut self) -> Result<Bytes, NoMemory>
        requires { 0 < self.old.ready }
        ensures joined { IfOk result (λ piece. kept_of self.old ≡ piece ++ kept_of self.new) }
        ensures some { IfOk result (λ piece. (0 < length piece) × (length piece ≤ MAX_RECORD)) }
        ensures cut { IfOk result (λ piece. IsCut default_config piece) }
        ensures longest { OnOk result (IsUncut default_config (kept_of self.new)) }
        ensures err { OnErr result (kept_of self.new ≡ kept_of self.old) }
        ensures over { self.new.over ≡ self.old.over }
    {
        let rest = Vec::from_slice(self.alloc, &self.kept.as_slice()[self.ready..])?;
        let mut piece = mem::replace(&mut self.kept, rest);
        piece.truncate(self.ready);
        self.ready = 0;
        Ok(Bytes::from_vec(piece))
    }

    // Gives all that is kept, if there is something.
    fn take_all(&mut self) -> Option<Bytes>
        ensures given { given_by (Ok result) ≡ kept_of self.old }
        ensures some { IfSome result (λ piece.
            (0 < length piece) × (length piece ≤ MAX_RECORD)) }
        ensures none { kept_of self.new ≡ [] }
        ensures over { self.new.over ≡ self.old.over }
    {
        if self.kept.is_empty() {
            return None;
        }
        let piece = mem::replace(&mut self.kept, Vec::new(self.alloc));
        self.place = Place::StartRecord;
        self.ready = 0;
        Some(Bytes::from_vec(piece))
    }
}
