// A law of two calls. The function proves its clause, and does nothing.
ghost use Rattle.fries_law.specs.TwoCalls.{SavedCallsAreOneRun};

/// What `save` and then `resume` run over the same files is one run.
///
/// `save` has to end without a fault, and `resume` has to run. The second call finds the job, the
/// requests and the payments that the first found, and the savepoint that it left. Then their
/// records are parts of a run of all rows. Joined they are that run, and it is consistent.
///
/// The shelf has to tell its files: else no clause of `fries` says which bytes were read.
pub fn saved_calls_are_one_run()
    ensures { SavedCallsAreOneRun }
{}
