// Laws of a stream's savepoints. Each function proves its clause and does nothing.
ghost use Rattle.std.specs.Prelude.{◌≡◌, ℕ, List, Ok};
ghost use Rattle.flow_model.specs.Setup.{setup_view};
ghost use Rattle.stream_save.specs.StreamReading.{CanSaveStream, stream_save_of};
ghost use Rattle.stream_save.specs.StreamText.{StreamSave, stream_save_text};

use flow_model::Setup;

/// The text of a stream's savepoint that can be saved is read as that savepoint.
pub fn stream_savepoints_are_read_again(setup: &Setup)
    ensures { (save : StreamSave) → CanSaveStream (setup_view setup.now).job save →
        stream_save_of (setup_view setup.now).job
        (stream_save_text (setup_view setup.now).job save) ≡ Ok save }
{}

/// The savepoint of a stream that a text tells can be saved.
///
/// So it has a wait for each request that was turned, and counts for each worker.
pub fn read_streams_can_be_saved(setup: &Setup)
    ensures { (bytes : List ℕ) (save : StreamSave) →
        stream_save_of (setup_view setup.now).job bytes ≡ Ok save →
        CanSaveStream (setup_view setup.now).job save }
{}
