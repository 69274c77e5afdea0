ghost use Rattle.cover_planner.specs.Laws.{PathsStayCovered, PathsNeverReturn, NoPathToHead};

/// The path fact, of any list of edges and any members. Where a path leads from a covered node to a
/// covered node, each edge between them on it is covered. So a path that has left the cover never
/// comes back to it, and no path leads from a covered node to a head.
pub fn paths_stay_covered()
    ensures covered { PathsStayCovered }
    ensures gone { PathsNeverReturn }
    ensures heads { NoPathToHead }
{}
