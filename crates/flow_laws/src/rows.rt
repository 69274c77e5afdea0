// A law of runs from a beginning on. The function proves its clauses from the definitions, and does
// nothing but look at the rows, whose type keeps that they are numbered and were nowhere yet.
ghost use Rattle.std.specs.Prelude.{ℕ, All};
ghost use Rattle.flow_model.specs.Agreement.{Agreement};
ghost use Rattle.flow_model.specs.Begin.{Begin};
ghost use Rattle.flow_model.specs.Run.{IsRunSince, Ran};
ghost use Rattle.flow_model.specs.Setup.{setup_view};
ghost use Rattle.flow_model.specs.Whole.{IsOneSided, asked_workers};
ghost use Rattle.flow_laws.specs.Later.{HasWholeRows};

use flow_model::Setup;
use tuple_trace::Rows;

/// In a run from any beginning on each row that is fed is whole at each request, and each identity
/// is met at most once at the workers of a node.
///
/// The workers of all nodes that a request's plan asks meet the row only before their turns, or
/// only after them. Each worker's tuples agree with its turns. Nothing is asked of the beginning:
/// neither its counts nor its requests need to come from an earlier run.
pub fn later_rows_are_whole(setup: &Setup, rows: &Rows)
    ensures rows { (begin : Begin) (ran : Ran) →
        IsRunSince begin (setup_view setup.now) rows.now ran → HasWholeRows ran }
    ensures asked { (begin : Begin) (ran : Ran) →
        IsRunSince begin (setup_view setup.now) rows.now ran → (request row : ℕ) →
        IsOneSided ran request row (asked_workers ran.setup request) }
    ensures agreement { (begin : Begin) (ran : Ran) →
        IsRunSince begin (setup_view setup.now) rows.now ran →
        All (Agreement ran.setup) ran.journals }
{
    let _numbered = rows.as_slice();
}
