ghost use Rattle.std.specs.Prelude.{◌≡◌, Some};
ghost use Rattle.jobs.specs.declared.func.Func.{Func as FuncIs};
ghost use Rattle.flow_model.specs.InForce.{func_in};
ghost use Rattle.flow_model.specs.Requests.{func_after};
ghost use Rattle.flow_model.specs.Setup.{setup_view};

use crate::Setup;

/// Where the function of a worker stands: in the job, or in the change at a place of a request.
#[derive(Clone, Copy, Debug, PartialEq, Eq)]
pub enum InForce {
    Own,
    Changed { request: u64, place: usize },
}

impl Setup {
    /// Returns where the function of a node stands after the first `turned` requests: in the latest
    /// of them that changes the node, or in the job if none does. Looks at each of them. Takes no
    /// memory.
    pub fn in_force_after(&self, node: u32, turned: u64) -> InForce
        ensures { (func : FuncIs)
            → func_in (setup_view self.now) node InForce.Own ≡ Some func
            → func_in (setup_view self.now) node result
            ≡ Some (func_after (setup_view self.now) node func turned) }
    {
        let mut at = InForce::Own;
        for before in 0..turned {
            let request = before + 1;
            if let Some(place) = self.change_place(request, node) {
                at = InForce::Changed { request, place };
            }
        }
        at
    }
}
