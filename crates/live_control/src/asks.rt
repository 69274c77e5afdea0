ghost use Rattle.live_control.specs.Asking.{AsksIs, IsNext};

/// The input refused. It has counted the failure.
#[derive(Clone, Copy, Debug, PartialEq, Eq)]
pub struct Failed;

/// An input of single bytes, from which releases are read.
pub trait Asks {
    /// The bytes that are left, if they are told, and how many calls have failed. The count never
    /// falls, and stays at 2^64 - 1.
    ghost state: { Self → AsksIs };

    /// Takes one byte. Returns `None` at the end of the input.
    fn next(&mut self) -> Result<Option<u8>, Failed>
        ensures { IsNext result (state self.old) (state self.new) };
}
