ghost use Rattle.std.specs.Prelude.{◌≡◌, ◌≢◌, ◌+◌, ◌-◌, ◌^◌, ◌<◌, ◌≤◌, ◌++◌, [], ℕ, List, Option};
ghost use Rattle.std.specs.Prelude.{None, Some, Err, length, max, min, option_copied};
ghost use Rattle.std.specs.Prelude.{option_map, take, IfErr, IfOk, IfSome, IsSome, OnErr, OnOk};
ghost use Rattle.std.specs.FinMap as map;
ghost use Rattle.payments.specs.Memory.{Plan, after_call, is_due, stored_files};

mod growing;

use crate::{Shelf, ShelfFault, Sink, SinkFault};
use std::alloc::Global;
use tuple_trace::{Bytes, Items, Word};

/// Numbers of calls, counted from 0.
pub type Calls = Items<u64>;

/// Files in memory. It tells what they hold, and fails at the calls that it was told to.
///
/// Calls are numbered from 0 over all calls of [`Shelf`] and [`crate::GrowingShelf`] alike. A
/// read of a name without a file fails as well.
#[derive(Debug, Drop)]
pub struct MemoryShelf {
    alloc: Global,
    step: u64,
    failing: Calls,
    calls: u64,
    draft: Option<File>,
    /// The files, the newest first. Of those with one name the newest counts.
    stored: Vec<File>,
    read_faults: u64,
    write_faults: u64,
    failed: Option<Word>,
}

#[derive(Debug, Drop)]
struct File {
    name: Word,
    bytes: Bytes,
}

impl MemoryShelf {
    ghost use Rattle.payments.specs.Causes.{Faults};
    ghost use Rattle.payments.specs.Memory.{draft_of, faults_of, files_of, plan_of, step_of};

    /// An empty shelf. A call that appends takes at most `step` bytes, but at least one, and the
    /// calls with these numbers fail. Takes no memory.
    pub fn new(alloc: Global, step: u64, failing: Calls) -> Self
        ensures files { files_of result ≡ stored_files [] }
        ensures draft { draft_of result ≡ None }
        ensures faults { faults_of result ≡ record { reads = 0; writes = 0; failed = None } }
        ensures plan { plan_of result ≡ record { failing = failing; calls = 0 } }
        ensures step { step_of result ≡ step }
    {
        MemoryShelf {
            alloc,
            step,
            failing,
            calls: 0,
            draft: None,
            stored: Vec::new(alloc),
            read_faults: 0,
            write_faults: 0,
            failed: None,
        }
    }

    /// The bytes of a file. None where there is no file of this name.
    pub fn get(&self, name: &Word) -> Option<&Bytes>
        ensures { option_copied result ≡ map.get (files_of self.now) name.now }
    {
        newest(&self.stored, name)
    }

    /// How many reads have failed.
    pub fn read_faults(&self) -> u64
        ensures { result ≡ (faults_of self.now).reads }
    {
        self.read_faults
    }

    /// How many writes have failed: calls that begin a draft, append to it or keep it, and calls
    /// that extend a file or cut it.
    pub fn write_faults(&self) -> u64
        ensures { result ≡ (faults_of self.now).writes }
    {
        self.write_faults
    }

    /// The name of the file at which a call failed last. None where none did.
    pub fn failed(&self) -> Option<&Word>
        ensures { option_copied result ≡ (faults_of self.now).failed }
    {
        self.failed.as_ref()
    }

    /// Puts a file on the shelf, in place of one with the same name. A draft is given up.
    ///
    /// This is none of the calls that are counted. After [`ShelfFault::NoMemory`] the files are as
    /// before.
    pub fn put(&mut self, name: Word, bytes: Bytes) -> Result<(), ShelfFault>
        ensures ok { OnOk result (files_of self.new ≡ map.insert (files_of self.old) name bytes) }
        ensures err { IfErr result (λ fault. (fault ≡ ShelfFault.NoMemory)
            × (files_of self.new ≡ files_of self.old)) }
        ensures closed { draft_of self.new ≡ None }
        ensures faults { faults_of self.new ≡ faults_of self.old }
        ensures plan { plan_of self.new ≡ plan_of self.old }
        ensures step { step_of self.new ≡ step_of self.old }
    {
        self.draft = None;
        let file = File { name, bytes };
        self.stored
            .insert(0, file)
            .map_err(|_| ShelfFault::NoMemory)
    }
}

impl Shelf for MemoryShelf {
    ghost use Rattle.payments.specs.Files.{Files, draft_name, draft_with, longer_draft};
    ghost use Rattle.payments.specs.Causes.{Faults, ReadCause, WriteCause};
    ghost use Rattle.payments.specs.Memory.{append_of, create_of, draft_of, faults_of, files_of};
    ghost use Rattle.payments.specs.Memory.{plan_of, read_of, shelf_state_of, step_of};

    ghost state = { shelf_state_of };

    fn read_all(&mut self, alloc: Global, name: &Word, limit: u64) -> Result<Bytes, ShelfFault>
        ensures answer { result ≢ Err ShelfFault.NoMemory
            → result ≡ read_of self.old name.now limit }
        ensures plan { plan_of self.new ≡ after_call (plan_of self.old) }
        ensures step { step_of self.new ≡ step_of self.old }
        ensures files { files_of self.new ≡ files_of self.old }
        ensures draft { draft_of self.new ≡ draft_of self.old }
        ensures cause { ReadCause result name.now (faults_of self.old) (faults_of self.new) }
    {
        let fails = is_to_fail(&mut self.calls, &self.failing);
        let kept = name.clone().map_err(|_| ShelfFault::NoMemory)?;
        if !fails {
            if let Some(bytes) = self.get(name) {
                if bytes.len() as u64 > limit {
                    return Err(ShelfFault::Long);
                }
                return bytes.clone().map_err(|_| ShelfFault::NoMemory);
            }
        }
        self.read_faults = self.read_faults.saturating_add(1);
        self.failed = Some(kept);
        Err(ShelfFault::Failed)
    }

    fn create(&mut self, name: &Word) -> Result<(), ShelfFault>
        ensures answer { result ≢ Err ShelfFault.NoMemory → result ≡ create_of self.old }
        ensures plan { plan_of self.new ≡ after_call (plan_of self.old) }
        ensures step { step_of self.new ≡ step_of self.old }
        ensures begun { OnOk result (draft_of self.new
            ≡ Some (draft_with (Some (files_of self.old)) name.now [])) }
        ensures closed { OnErr result (draft_of self.new ≡ None) }
        ensures files { files_of self.new ≡ files_of self.old }
        ensures cause { WriteCause result (Some name.now) (faults_of self.old)
            (faults_of self.new) }
    {
        self.draft = None;
        let fails = is_to_fail(&mut self.calls, &self.failing);
        let name = name.clone().map_err(|_| ShelfFault::NoMemory)?;
        if fails {
            self.write_faults = self.write_faults.saturating_add(1);
            self.failed = Some(name);
            return Err(ShelfFault::Failed);
        }
        let bytes = Bytes::new(self.alloc);
        self.draft = Some(File { name, bytes });
        Ok(())
    }

    fn append(&mut self, piece: &[u8]) -> Result<u64, ShelfFault>
        requires begun { IsSome (draft_of self.old) }
        requires some { 0 < length piece.now }
        ensures answer { result ≢ Err ShelfFault.NoMemory
            → result ≡ append_of self.old (length piece.now) }
        ensures plan { plan_of self.new ≡ after_call (plan_of self.old) }
        ensures step { step_of self.new ≡ step_of self.old }
        ensures more { IfOk result (λ n. IfSome (draft_of self.old) (λ draft.
            draft_of self.new ≡ Some (longer_draft draft (take n piece.now)))) }
        ensures closed { OnErr result (draft_of self.new ≡ None) }
        ensures files { files_of self.new ≡ files_of self.old }
        ensures cause { WriteCause result (draft_name (draft_of self.old)) (faults_of self.old)
            (faults_of self.new) }
    {
        let fails = is_to_fail(&mut self.calls, &self.failing);
        let Some(mut draft) = self.draft.take() else {
            unreachable!()
        };
        if fails {
            self.write_faults = self.write_faults.saturating_add(1);
            self.failed = Some(draft.name);
            return Err(ShelfFault::Failed);
        }
        let count = draft.grow(self.step, piece)?;
        self.draft = Some(draft);
        Ok(count)
    }

    fn keep(&mut self) -> Result<(), ShelfFault>
        requires begun { IsSome (draft_of self.old) }
        ensures answer { result ≢ Err ShelfFault.NoMemory → result ≡ create_of self.old }
        ensures plan { plan_of self.new ≡ after_call (plan_of self.old) }
        ensures step { step_of self.new ≡ step_of self.old }
        ensures kept { OnOk result (IfSome (draft_of self.old) (λ draft.
            Some (files_of self.new) ≡ draft.files)) }
        ensures unkept { OnErr result (files_of self.new ≡ files_of self.old) }
        ensures closed { draft_of self.new ≡ None }
        ensures cause { WriteCause result (draft_name (draft_of self.old)) (faults_of self.old)
            (faults_of self.new) }
    {
        let fails = is_to_fail(&mut self.calls, &self.failing);
        let Some(draft) = self.draft.take() else {
            unreachable!()
        };
        if fails {
            self.write_faults = self.write_faults.saturating_add(1);
            self.failed = Some(draft.name);
            return Err(ShelfFault::Failed);
        }
        self.stored
            .insert(0, draft)
            .map_err(|_| ShelfFault::NoMemory)
    }
}

impl File {
    fn grow(&mut self, step: u64, piece: &[u8]) -> Result<u64, ShelfFault>
        requires { 0 < length piece.now }
        ensures count { IfOk result (λ n. n ≡ min (max step 1) (length piece.now)) }
        ensures more { IfOk result (λ n. self.new ≡ record self.old {
          bytes = self.old.bytes
              ++ take n piece.now;
        }) }
        ensures err { IfErr result (λ fault. (self.new ≡ self.old)
            × (fault ≡ ShelfFault.NoMemory)) }
    {
        let count = step.max(1).min(piece.len() as u64);
        self.bytes
            .extend_from_slice(&piece[..count as usize])
            .map_err(|_| ShelfFault::NoMemory)?;
        Ok(count)
    }
}

fn newest<'a>(files: &'a [File], name: &Word) -> Option<&'a Bytes>
    ensures { option_copied result ≡ map.get (stored_files files.now) name.now }
{
    for file in files {
        if name.as_str() == file.name.as_str() {
            return Some(&file.bytes);
        }
    }
    None
}

/// Counts a call, and says whether it is to fail.
fn is_to_fail(calls: &mut u64, failing: &Calls) -> bool
    ensures due { result ≡ is_due (record { failing = failing.now; calls = calls.old }) }
    ensures counted { calls.new ≡ min (calls.old + 1) (2 ^ 64 - 1) }
{
    let number = *calls;
    *calls = number.saturating_add(1);
    failing.as_slice().contains(&number)
}

/// A stream in memory. It tells what was written, takes each piece whole, and fails at the writes
/// that it was told to.
#[derive(Debug, Drop)]
pub struct MemorySink {
    failing: Calls,
    calls: u64,
    written: Bytes,
    faults: u64,
}

impl MemorySink {
    ghost use Rattle.payments.specs.Memory.{sink_faults_of, sink_plan_of, written_of};

    /// A stream to which nothing is written yet. The writes with these numbers fail. Takes no
    /// memory.
    pub fn new(alloc: Global, failing: Calls) -> Self
        ensures written { written_of result ≡ [] }
        ensures faults { sink_faults_of result ≡ 0 }
        ensures plan { sink_plan_of result ≡ record { failing = failing; calls = 0 } }
    {
        MemorySink {
            failing,
            calls: 0,
            written: Bytes::new(alloc),
            faults: 0,
        }
    }

    /// All that was written.
    pub fn written(&self) -> &[u8]
        ensures { result.now ≡ written_of self.now }
    {
        self.written.as_slice()
    }

    /// How many writes have failed.
    pub fn faults(&self) -> u64
        ensures { result ≡ sink_faults_of self.now }
    {
        self.faults
    }
}

impl Sink for MemorySink {
    ghost use Rattle.payments.specs.Causes.{SinkCause};
    ghost use Rattle.payments.specs.Memory.{sink_faults_of, sink_plan_of, sink_state_of, write_of};
    ghost use Rattle.payments.specs.Memory.{written_of};

    ghost state = { sink_state_of };

    fn write(&mut self, piece: &[u8]) -> Result<u64, SinkFault>
        requires some { 0 < length piece.now }
        ensures answer { result ≢ Err SinkFault.NoMemory
            → result ≡ write_of self.old (length piece.now) }
        ensures plan { sink_plan_of self.new ≡ after_call (sink_plan_of self.old) }
        ensures more { IfOk result (λ n. written_of self.new
            ≡ written_of self.old ++ take n piece.now) }
        ensures err { OnErr result (written_of self.new ≡ written_of self.old) }
        ensures cause { SinkCause result (sink_faults_of self.old) (sink_faults_of self.new) }
    {
        if is_to_fail(&mut self.calls, &self.failing) {
            self.faults = self.faults.saturating_add(1);
            return Err(SinkFault::Failed);
        }
        self.written
            .extend_from_slice(piece)
            .map_err(|_| SinkFault::NoMemory)?;
        Ok(piece.len() as u64)
    }
}
