ghost use Rattle.std.specs.Prelude.{◌≡◌, All, IfOk, map};
ghost use Rattle.audit_fault.specs.Noting.{IsNoted};
ghost use Rattle.fries_lines.specs.Lines.{noted as noted_as};

use flow_model::{Plans, Setup};
use fries_lines::{noted, refused_are_noted};
use sink_journal::Noted;
use std::alloc::Global;
use tuple_trace::{NoMemory, Rows};
use versions::{Refusals, Request, Requests};

/// What all parts of a stream are of, beside the job: the accepted requests with their plans, the
/// refused ones, also as an audit notes them, and the rows.
#[derive(Drop)]
pub(crate) struct Whole<'a> {
    pub requests: Requests,
    pub plans: Plans,
    pub refused: Refusals,
    pub noted: Vec<Noted>,
    pub rows: &'a Rows,
    ghost noted_are: { noted.items ≡ map noted_as refused },
    ghost each: { All IsNoted noted.items },
}

impl<'a> Whole<'a> {
    /// What the parts of a stream of this setup and these rows are of. The one error is out of
    /// memory.
    pub fn of(alloc: Global, setup: &Setup, rows: &'a Rows) -> Result<Whole<'a>, NoMemory>
        ensures requests { IfOk result (λ whole. whole.requests ≡ setup.now.judged.accepted) }
        ensures plans { IfOk result (λ whole. whole.plans ≡ setup.now.plans) }
        ensures refused { IfOk result (λ whole. whole.refused ≡ setup.now.judged.refused) }
        ensures rows { IfOk result (λ whole. whole.rows.now ≡ rows.now) }
    {
        let refused = setup.judged.refused.as_slice();
        refused_are_noted(refused);
        let noted = noted(alloc, refused)?;
        let refused = Refusals::from_slice(alloc, refused)?;
        let requests = copies(alloc, setup.judged.accepted.as_slice())?;
        let plans = Plans::from_slice(alloc, setup.plans.as_slice())?;
        Ok(Whole {
            requests,
            plans,
            refused,
            noted,
            rows,
        })
    }
}

/// Equal requests. The one error is out of memory.
pub(crate) fn copies(alloc: Global, requests: &[Request]) -> Result<Requests, NoMemory>
    ensures { IfOk result (λ copies. copies ≡ requests.now) }
{
    let mut copies = Requests::new(alloc);
    for request in requests {
        copies.push(request.copy(alloc)?)?;
    }
    Ok(copies)
}
