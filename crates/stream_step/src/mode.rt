ghost use Rattle.std.specs.Prelude.{◌≡◌};
ghost use Rattle.stream_step.specs.Pending.{exact_from as exact_from_of};

/// How a stream is run.
#[derive(Clone, Copy)]
pub struct StreamMode {
    /// Whether rows and requests have one order.
    pub ordered: bool,
    /// Whether each request takes effect just behind its row, so that it parts the rows.
    pub exact: bool,
}

/// How many requests were issued when a stream became exact, if it is to be so from here on.
pub(crate) fn exact_from(exact: bool, issued: u64) -> Option<u64>
    ensures { result ≡ exact_from_of exact issued }
{
    exact.then_some(issued)
}
