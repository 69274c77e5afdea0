// The kinds of functions: a row each, and what is read off it.
ghost use Rattle.std.specs.Prelude.{◌≡◌, find, map};
ghost use Rattle.jobs.specs.Kinds.{has_name, key_of, kind_named, kind_of, row_of};

use crate::Func;
use tuple_trace::MAX_NODE_WORKERS;

/// What kind a function is of. [`Kind::row`] says what a kind asks of its nodes, and what they do.
#[derive(Clone, Copy, Debug, PartialEq, Eq)]
pub enum Kind {
    Source,
    Filter,
    Map,
    Enrich,
    Count,
    Dedupe,
    Clamp,
    Split,
    Replicate,
    Sink,
}

/// What a node of a kind does in a flow.
#[derive(Clone, Copy, Debug, PartialEq, Eq)]
pub enum Role {
    /// Rows enter at it, and no edge leads to it. The feeder plays it, so it keeps no journal.
    Source,
    /// It makes tuples of the tuples that come to it.
    Operator,
    /// What comes to it is an alert, and goes no further.
    Sink,
}

/// How many tuples a node of a kind may make of one.
#[derive(Clone, Copy, Debug, PartialEq, Eq)]
pub enum Shape {
    /// No tuple.
    Nothing,
    /// One tuple or none, with the births of its tuple.
    AtMostOne,
    /// A tuple a piece, up to a number that the function has. The piece's number is the last birth.
    Pieces,
    /// A copy along each edge that leaves the node. The edge's port is the last birth.
    Copies,
}

/// Which functions a request may give a node of a kind.
#[derive(Clone, Copy, Debug, PartialEq, Eq)]
pub enum Followers {
    /// None: requests leave the node as it is.
    Nothing,
    /// Only functions of the same kind.
    SameKind,
    /// Functions of the same kind, and those of any other kind with `FreeKinds` if just one edge
    /// leaves the node.
    FreeKinds,
}

/// A kind in one row.
#[derive(Clone, Copy, Debug)]
pub struct KindRow {
    /// The word of a job file for the kind.
    pub name: &'static str,
    /// The keys of a job file that say what the function is, in the order in which they are read.
    pub keys: &'static [&'static str],
    pub role: Role,
    pub shape: Shape,
    /// The fewest edges that may leave a node of the kind.
    pub least_outs: u32,
    /// The most edges that may leave a node of the kind.
    pub most_outs: u32,
    /// The most workers that a node of the kind may have. The fewest is 1.
    pub most_workers: u32,
    /// Whether the node keeps counts. Then tuples are spread over its workers by key, and else by
    /// row.
    pub counts: bool,
    pub followers: Followers,
}

/// What most kinds have: an operator of one edge out, which makes one tuple or none of each and may
/// be given a function of another kind. A row says where its kind differs.
const ONE_FOR_ONE: KindRow = KindRow {
    name: "",
    keys: &[],
    role: Role::Operator,
    shape: Shape::AtMostOne,
    least_outs: 1,
    most_outs: 1,
    most_workers: MAX_NODE_WORKERS,
    counts: false,
    followers: Followers::FreeKinds,
};

impl Kind {
    /// The row of the kind. A new kind has its row here and in `specs/Kinds.antt`.
    pub fn row(self) -> KindRow
        ensures name { result.name.now ≡ (row_of self).name }
        ensures keys { map (λ key. key.now) result.keys.now ≡ (row_of self).keys }
        ensures role { result.role ≡ (row_of self).role }
        ensures shape { result.shape ≡ (row_of self).shape }
        ensures least_outs { result.least_outs ≡ (row_of self).least_outs }
        ensures most_outs { result.most_outs ≡ (row_of self).most_outs }
        ensures most_workers { result.most_workers ≡ (row_of self).most_workers }
        ensures counts { result.counts ≡ (row_of self).counts }
        ensures followers { result.followers ≡ (row_of self).followers }
    {
        match self {
            Kind::Source => KindRow {
                name: "source",
                role: Role::Source,
                shape: Shape::Nothing,
                most_workers: 1,
                followers: Followers::Nothing,
                ..ONE_FOR_ONE
            },
            Kind::Filter => KindRow {
                name: "filter",
                keys: &["when"],
                most_outs: 2,
                ..ONE_FOR_ONE
            },
            Kind::Map => KindRow {
                name: "map",
                keys: &["steps"],
                ..ONE_FOR_ONE
            },
            Kind::Enrich => KindRow {
                name: "enrich",
                keys: &["key", "into", "table", "other"],
                ..ONE_FOR_ONE
            },
            Kind::Count => KindRow {
                name: "count",
                keys: &["key", "add", "into"],
                counts: true,
                followers: Followers::SameKind,
                ..ONE_FOR_ONE
            },
            Kind::Dedupe => KindRow {
                name: "dedupe",
                keys: &["key"],
                counts: true,
                followers: Followers::SameKind,
                ..ONE_FOR_ONE
            },
            Kind::Clamp => KindRow {
                name: "clamp",
                keys: &["on", "low", "high"],
                ..ONE_FOR_ONE
            },
            Kind::Split => KindRow {
                name: "split",
                keys: &["on", "by", "most"],
                shape: Shape::Pieces,
                ..ONE_FOR_ONE
            },
            Kind::Replicate => KindRow {
                name: "replicate",
                shape: Shape::Copies,
                least_outs: 2,
                most_outs: 8,
                followers: Followers::Nothing,
                ..ONE_FOR_ONE
            },
            Kind::Sink => KindRow {
                name: "sink",
                keys: &["columns"],
                role: Role::Sink,
                shape: Shape::Nothing,
                least_outs: 0,
                most_outs: 0,
                most_workers: 1,
                followers: Followers::Nothing,
                ..ONE_FOR_ONE
            },
        }
    }

    /// The kind of a word, if there is one. Takes no memory.
    pub fn named(word: &str) -> Option<Kind>
        ensures { result ≡ kind_named word.now }
    {
        let kinds = [
            Kind::Source,
            Kind::Filter,
            Kind::Map,
            Kind::Enrich,
            Kind::Count,
            Kind::Dedupe,
            Kind::Clamp,
            Kind::Split,
            Kind::Replicate,
            Kind::Sink,
        ];
        first_named(&kinds, word)
    }
}

// The first of these kinds that has the word for a name.
fn first_named(kinds: &[Kind], word: &str) -> Option<Kind>
    ensures { result ≡ find (has_name word.now) kinds.now }
{
    for kind in kinds {
        if word == kind.row().name {
            return Some(*kind);
        }
    }
    None
}

impl Func {
    /// The kind of the function. Takes no memory.
    pub fn kind(&self) -> Kind
        ensures { result ≡ kind_of self.now }
    {
        match self {
            Func::Source => Kind::Source,
            Func::Filter(_) => Kind::Filter,
            Func::Map(_) => Kind::Map,
            Func::Enrich(_) => Kind::Enrich,
            Func::Count(_) => Kind::Count,
            Func::Dedupe(_) => Kind::Dedupe,
            Func::Clamp(_) => Kind::Clamp,
            Func::Split(_) => Kind::Split,
            Func::Replicate => Kind::Replicate,
            Func::Sink(_) => Kind::Sink,
        }
    }
}

/// The column whose texts are the keys that a function counts by, if it counts. Takes no memory.
pub fn key_of(func: &Func) -> Option<u32>
    ensures { result ≡ key_of func.now }
{
    match func {
        Func::Count(count) => Some(count.key),
        Func::Dedupe(dedupe) => Some(dedupe.key),
        _ => None,
    }
}
