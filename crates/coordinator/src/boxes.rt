ghost use Rattle.std.specs.Prelude.{◌≡◌, ◌<◌, ◌≤◌, ◌-◌, ◌^◌, ℕ, IfOk, IsTrue, Some, false, length};
ghost use Rattle.std.specs.Prelude.{replicate, slice_get};
ghost use Rattle.flow_model.specs.Setup.{setup_view};
ghost use Rattle.flow_model.specs.Workers.{workers_in};
ghost use Rattle.coordinator.specs.Boxes.{AreCountedWith, ArePosted, AreReached, AreReady};
ghost use Rattle.coordinator.specs.Boxes.{IsUnready, MayPost, SameBoxes, SameLoads, SamePosts};

use control_box::Poster;
use flow_model::Setup;
use std::alloc::Global;
use std::marker::Model;
use tuple_trace::NoMemory;

// Asks the boxes, from this place on, up to the first whose worker hasn't turned as many requests
// as cover it. Returns how many boxes are ready.
fn ask(posters: &mut [Poster], covered: &[u64], first: usize) -> usize
    requires one_each { length covered.now ≡ length posters.old }
    requires within { first ≤ length posters.old }
    requires few { (w n : ℕ) → slice_get covered.now w ≡ Some n → n < 2 ^ 64 - 1 }
    requires ready { AreReady covered.now first posters.old }
    ensures boxes { SameBoxes posters.old posters.new }
    ensures workers_in { SamePosts posters.old posters.new }
    ensures within { result ≤ length posters.new }
    ensures ready { AreReady covered.now result posters.new }
    ensures waits { result < length posters.new
        → IsUnready covered.now result posters.old posters.new }
{
    for place in first..posters.len() {
        if !posters[place].ready(covered[place] + 1) {
            return place;
        }
    }
    posters.len()
}

// Counts the request at each worker that it covers.
fn count(covered: &mut [u64], setup: &Setup, request: u64)
    requires one_each { length covered.old ≡ length (workers_in (setup_view setup.now).job) }
    requires few { (w n : ℕ) → slice_get covered.old w ≡ Some n → n < 2 ^ 64 - 1 }
    ensures { AreCountedWith (setup_view setup.now) request covered.old covered.new }
{
    for worker in 0..setup.workers() {
        if setup.covers(worker, request) {
            covered[worker as usize] += 1;
        }
    }
}

// Posts the request to the workers of its heads, under its number at each.
fn post_all(posters: &mut [Poster], covered: &[u64], setup: &Setup, request: u64)
    requires boxes { length posters.old ≡ length (workers_in (setup_view setup.now).job) }
    requires one_each { length covered.now ≡ length posters.old }
    requires ready { MayPost (setup_view setup.now) request covered.now posters.old }
    ensures boxes { SameBoxes posters.old posters.new }
    ensures loads { SameLoads posters.old posters.new }
    ensures posted { ArePosted (setup_view setup.now) request covered.now posters.old posters.new }
{
    for worker in 0..setup.workers() {
        if setup.is_head(worker, request) {
            posters[worker as usize].post(covered[worker as usize]);
        }
    }
}

// Counts the request at each worker that it covers, and posts it to the workers of its heads.
fn issue_all(posters: &mut [Poster], covered: &mut [u64], setup: &Setup, request: u64)
    requires boxes { length posters.old ≡ length (workers_in (setup_view setup.now).job) }
    requires one_each { length covered.old ≡ length posters.old }
    requires few { (w n : ℕ) → slice_get covered.old w ≡ Some n → n < 2 ^ 64 - 1 }
    requires ready { AreReached covered.old posters.old }
    ensures counted { AreCountedWith (setup_view setup.now) request covered.old covered.new }
    ensures boxes { SameBoxes posters.old posters.new }
    ensures loads { SameLoads posters.old posters.new }
    ensures posted { ArePosted (setup_view setup.now) request covered.new posters.old posters.new }
{
    count(covered, setup, request);
    post_all(posters, covered, setup, request);
}

/// The boxes of all workers, in their order.
#[derive(Drop)]
pub struct Boxes {
    posters: Vec<Poster>,
    /// For each worker, how many of the requests issued since the beginning cover it.
    covered: Vec<u64>,
    /// How many boxes, from the first, have shown that they are ready for the next request.
    ready: usize,
}

impl Model for Boxes {
    ghost use Rattle.coordinator.specs.Views.{BoxesIs};

    ghost Value = { BoxesIs };

    ghost view = { λ b. record {
      posters = b.posters.items;
      covered = b.covered.items;
      ready = b.ready;
    } };
}

impl Boxes {
    /// The boxes of these posters, before any request is issued.
    pub fn of(alloc: Global, posters: Vec<Poster>) -> Result<Boxes, NoMemory>
        ensures { IfOk result (λ boxes. boxes ≡ record {
          posters = posters.items;
          covered = replicate (length posters.items) 0;
          ready = 0;
        }) }
    {
        let covered = vec![in alloc; 0; posters.len()]?;
        Ok(Boxes {
            posters,
            covered,
            ready: 0,
        })
    }

    /// Whether each worker has turned all requests so far that cover it. It asks the boxes that
    /// haven't shown it yet, up to the first that isn't ready.
    pub fn are_ready(&mut self) -> bool
        requires one_each { length self.old.covered ≡ length self.old.posters }
        requires within { self.old.ready ≤ length self.old.posters }
        requires few { (w n : ℕ) → slice_get self.old.covered w ≡ Some n → n < 2 ^ 64 - 1 }
        requires ready { AreReady self.old.covered self.old.ready self.old.posters }
        ensures covered { self.new.covered ≡ self.old.covered }
        ensures boxes { SameBoxes self.old.posters self.new.posters }
        ensures workers_in { SamePosts self.old.posters self.new.posters }
        ensures within { self.new.ready ≤ length self.new.posters }
        ensures ready { AreReady self.old.covered self.new.ready self.new.posters }
        ensures all { IsTrue result → self.new.ready ≡ length self.new.posters }
        ensures waits { result ≡ false
            → IsUnready self.old.covered self.new.ready self.old.posters self.new.posters }
    {
        let covered = self.covered.as_slice();
        self.ready = ask(self.posters.as_mut_slice(), covered, self.ready);
        self.ready == self.posters.len()
    }

    /// Posts the request to the workers of its heads, under its number at each.
    pub fn post(&mut self, setup: &Setup, request: u64)
        requires boxes { length self.old.posters ≡ length (workers_in (setup_view setup.now).job) }
        requires one_each { length self.old.covered ≡ length self.old.posters }
        requires few { (w n : ℕ) → slice_get self.old.covered w ≡ Some n → n < 2 ^ 64 - 1 }
        requires ready { AreReached self.old.covered self.old.posters }
        ensures counted { AreCountedWith (setup_view setup.now) request self.old.covered
            self.new.covered }
        ensures boxes { SameBoxes self.old.posters self.new.posters }
        ensures loads { SameLoads self.old.posters self.new.posters }
        ensures posted { ArePosted (setup_view setup.now) request self.new.covered
            self.old.posters self.new.posters }
        ensures ready { self.new.ready ≡ 0 }
    {
        let covered = self.covered.as_mut_slice();
        issue_all(self.posters.as_mut_slice(), covered, setup, request);
        self.ready = 0;
    }
}
