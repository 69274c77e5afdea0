ghost use Rattle.std.specs.Prelude.{◌≡◌, ℕ, IfOk, List, string_bytes};
ghost use Rattle.std.specs.Result.{result_err};
ghost use Rattle.fries_steps.specs.Effects.{Prints};

use fries_lines::{Fault, FileIs};
use payments::{Sink, SinkFault, write_all};
use tuple_trace::NoMemory;

/// Prints a text. After a fault a prefix of it is printed; where it is empty, nothing is handed to
/// the output.
pub fn print<O: Sink>(out: &mut O, text: &[u8]) -> Result<(), Fault>
    ensures { Prints text.now (O.state out.old) (O.state out.new) (result_err result) }
{
    match write_all(out, text) {
        Ok(()) => Ok(()),
        Err(SinkFault::Failed) => Err(Fault::Write(FileIs::Out)),
        Err(SinkFault::NoMemory) => Err(Fault::NoMemory),
    }
}

/// Prints a line that was made. If memory ran out before, nothing is printed.
pub fn print_made<O: Sink>(made: Result<String, NoMemory>, out: &mut O) -> Result<(), Fault>
    ensures { (text : List ℕ) → IfOk made (λ line. string_bytes line ≡ text)
        → Prints text (O.state out.old) (O.state out.new) (result_err result) }
{
    match made {
        Ok(line) => print(out, line.as_bytes()),
        Err(NoMemory) => Err(Fault::NoMemory),
    }
}
