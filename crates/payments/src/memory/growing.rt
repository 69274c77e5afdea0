ghost use Rattle.std.specs.Prelude.{◌≡◌, ◌≢◌, ◌<◌, ◌++◌, None, Some, Ok, Err, true};
ghost use Rattle.std.specs.Prelude.{length, take, IfErr, IfOk, OnErr};
ghost use Rattle.payments.specs.Causes.{WriteCause};
ghost use Rattle.payments.specs.Files.{bytes_of, with_more};
ghost use Rattle.payments.specs.Growing.{with_cut};
ghost use Rattle.payments.specs.Memory.{after_call, append_of, cut_of, draft_of, faults_of};
ghost use Rattle.payments.specs.Memory.{files_of, plan_of, step_of};

use super::{MemoryShelf, is_to_fail};
use crate::{GrowingShelf, ShelfFault};
use tuple_trace::{Bytes, Word};

impl GrowingShelf for MemoryShelf {
    fn extend(&mut self, name: &Word, piece: &[u8]) -> Result<u64, ShelfFault>
        requires closed { draft_of self.old ≡ None }
        requires some { 0 < length piece.now }
        ensures answer { result ≢ Err ShelfFault.NoMemory
            → result ≡ append_of self.old (length piece.now) }
        ensures plan { plan_of self.new ≡ after_call (plan_of self.old) }
        ensures step { step_of self.new ≡ step_of self.old }
        ensures more { IfOk result (λ n. Some (files_of self.new)
            ≡ with_more (Some (files_of self.old)) name.now (take n piece.now)) }
        ensures as_before { OnErr result (files_of self.new ≡ files_of self.old) }
        ensures closed { draft_of self.new ≡ None }
        ensures cause { WriteCause result (Some name.now) (faults_of self.old)
            (faults_of self.new) }
    {
        let fails = is_to_fail(&mut self.calls, &self.failing);
        let kept = name.clone().map_err(|_| ShelfFault::NoMemory)?;
        if fails {
            self.write_faults = self.write_faults.saturating_add(1);
            self.failed = Some(kept);
            return Err(ShelfFault::Failed);
        }
        let count = self.step.max(1).min(piece.len() as u64);
        let bytes = self.with_piece(name, &piece[..count as usize])?;
        self.put(kept, bytes)?;
        Ok(count)
    }

    fn cut(&mut self, name: &Word, size: u64) -> Result<bool, ShelfFault>
        requires closed { draft_of self.old ≡ None }
        ensures answer { result ≢ Err ShelfFault.NoMemory
            → result ≡ cut_of self.old name.now size }
        ensures plan { plan_of self.new ≡ after_call (plan_of self.old) }
        ensures step { step_of self.new ≡ step_of self.old }
        ensures cut { result ≡ Ok true → Some (files_of self.new)
            ≡ with_cut (Some (files_of self.old)) name.now size }
        ensures as_before { result ≢ Ok true → files_of self.new ≡ files_of self.old }
        ensures closed { draft_of self.new ≡ None }
        ensures cause { WriteCause result (Some name.now) (faults_of self.old)
            (faults_of self.new) }
    {
        let fails = is_to_fail(&mut self.calls, &self.failing);
        let kept = name.clone().map_err(|_| ShelfFault::NoMemory)?;
        if fails {
            self.write_faults = self.write_faults.saturating_add(1);
            self.failed = Some(kept);
            return Err(ShelfFault::Failed);
        }
        let held = self.bytes(name);
        if size > held.len() as u64 {
            return Ok(false);
        }
        let bytes = Bytes::from_slice(self.alloc, &held[..size as usize]).map_err(
            |_| ShelfFault::NoMemory,
        )?;
        self.put(kept, bytes)?;
        Ok(true)
    }
}

impl MemoryShelf {
    // What a file holds, no bytes if there is none.
    fn bytes(&self, name: &Word) -> &[u8]
        ensures { result.now ≡ bytes_of (files_of self.now) name.now }
    {
        match self.get(name) {
            Some(bytes) => bytes.as_slice(),
            None => &[],
        }
    }

    // What a file holds, followed by a piece.
    fn with_piece(&self, name: &Word, piece: &[u8]) -> Result<Bytes, ShelfFault>
        ensures more { IfOk result (λ bytes.
            bytes ≡ bytes_of (files_of self.now) name.now ++ piece.now) }
        ensures err { IfErr result (λ fault. fault ≡ ShelfFault.NoMemory) }
    {
        let held = self.bytes(name);
        let mut bytes = Bytes::from_slice(self.alloc, held).map_err(|_| ShelfFault::NoMemory)?;
        bytes
            .extend_from_slice(piece)
            .map_err(|_| ShelfFault::NoMemory)?;
        Ok(bytes)
    }
}
