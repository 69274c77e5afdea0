// What calls answer. The function proves its clause, and does nothing.
ghost use Rattle.fries_call.specs.Sure.{SureCallsEndWell};

/// If neither the shelf nor the output nor the input of releases ever counts a fault, a call ends
/// with one of the statuses 0, 1, 2, 3, 4, 7, 8, 9, 10 and 11, whatever it is asked.
pub fn sure_calls_end_well()
    ensures { SureCallsEndWell }
{}
