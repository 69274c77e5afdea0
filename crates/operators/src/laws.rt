// What is true of all outputs. Each function proves its clause for every job, function and tuple,
// and does nothing.
ghost use Rattle.operators.specs.Laws.{CountsServeCounts, OutputsAreBlind, OutputsAreFew};
ghost use Rattle.operators.specs.Laws.{OutputsAreMadeOf, OutputsArePeers, PortsHaveEdges};

/// An output has the row, the `issued` and the births of its tuple, and its trace with the visit
/// behind it. A split adds the number of the piece to the births, and a replicate the port. It
/// leaves by a port of the function.
pub fn outputs_are_made_of_their_tuple()
    ensures { OutputsAreMadeOf }
{}

/// A count alone reads and changes the counts of its node.
pub fn counts_serve_counts_alone()
    ensures { CountsServeCounts }
{}

/// Ports, rows, births and fields depend on no trace, no worker and no request.
pub fn outputs_are_blind()
    ensures { OutputsAreBlind }
{}

/// Where the edges of the node are those of the function's kind, every output leaves by the port of
/// one of them.
pub fn outputs_leave_by_edges()
    ensures { PortsHaveEdges }
{}

/// Two outputs for one tuple have different births.
pub fn outputs_are_told_apart()
    ensures { OutputsArePeers }
{}

/// No function makes more outputs of one tuple than `most_outputs` answers for the node's ports.
pub fn outputs_are_few()
    ensures { OutputsAreFew }
{}
