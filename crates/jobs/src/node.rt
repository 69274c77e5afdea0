// What the kind of a node's function says of it: what is read off the kind's row.
ghost use Rattle.std.specs.Prelude.{◌≡◌};
ghost use Rattle.jobs.specs.Nodes.{fan_out, is_count, is_fixed, is_free, is_replicate, is_sink};
ghost use Rattle.jobs.specs.Nodes.{is_source, is_split, most_roof, most_workers, workers_of};

use crate::{Followers, Func, MAX_PIECES, NodeDef, Role, Shape};

impl NodeDef {
    /// How many workers the node has that keep a journal: none for a source, which the feeder
    /// plays. Takes no memory.
    pub fn journal_count(&self) -> u32
        ensures { result ≡ workers_of self.now }
    {
        if is_source(&self.func) {
            0
        } else {
            self.workers
        }
    }
}

/// Whether rows enter here. Takes no memory.
pub fn is_source(func: &Func) -> bool
    ensures { result ≡ is_source func.now }
{
    match func.kind().row().role {
        Role::Source => true,
        Role::Operator | Role::Sink => false,
    }
}

/// Whether what comes to a node with this function is an alert. Takes no memory.
pub fn is_sink(func: &Func) -> bool
    ensures { result ≡ is_sink func.now }
{
    match func.kind().row().role {
        Role::Sink => true,
        Role::Source | Role::Operator => false,
    }
}

/// Whether a function keeps counts. Takes no memory.
pub fn is_count(func: &Func) -> bool
    ensures { result ≡ is_count func.now }
{
    func.kind().row().counts
}

/// Whether a function makes tuples of the pieces of a text. Takes no memory.
pub fn is_split(func: &Func) -> bool
    ensures { result ≡ is_split func.now }
{
    match func.kind().row().shape {
        Shape::Pieces => true,
        Shape::Nothing | Shape::AtMostOne | Shape::Copies => false,
    }
}

/// Whether a function sends a copy along each edge. Takes no memory.
pub fn is_replicate(func: &Func) -> bool
    ensures { result ≡ is_replicate func.now }
{
    match func.kind().row().shape {
        Shape::Copies => true,
        Shape::Nothing | Shape::AtMostOne | Shape::Pieces => false,
    }
}

/// Whether requests leave a node with this function as it is. Takes no memory.
pub fn is_fixed(func: &Func) -> bool
    ensures { result ≡ is_fixed func.now }
{
    match func.kind().row().followers {
        Followers::Nothing => true,
        Followers::SameKind | Followers::FreeKinds => false,
    }
}

/// Whether requests may give a node with this function, and with one edge out, another kind. Takes
/// no memory.
pub fn is_free(func: &Func) -> bool
    ensures { result ≡ is_free func.now }
{
    match func.kind().row().followers {
        Followers::FreeKinds => true,
        Followers::Nothing | Followers::SameKind => false,
    }
}

/// How many tuples a function may send along an edge for one that it gets: `most` for a split, and
/// 1 for any other. Takes no memory.
pub fn fan_out(func: &Func) -> u32
    ensures { result ≡ fan_out func.now }
{
    match func {
        Func::Split(split) => split.most,
        _ => 1,
    }
}

/// The greatest roof of a node with this function that `outs` edges leave.
pub fn most_roof(func: &Func, outs: u32) -> u32
    ensures { result ≡ most_roof func.now outs }
{
    if !is_free(func) {
        1
    } else if 2 <= func.kind().row().most_outs && outs == 2 {
        1
    } else {
        MAX_PIECES
    }
}

/// The most workers that a node with this function may have.
pub fn most_workers(func: &Func) -> u32
    ensures { result ≡ most_workers func.now }
{
    func.kind().row().most_workers
}
