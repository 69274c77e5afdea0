ghost use Rattle.std.specs.Prelude.{◌≡◌, [], ◌∷◌, ◌++◌, IfNone, IfSome, OnErr, OnOk, map};
ghost use Rattle.flow_crew.specs.Sides.{empty_side};
ghost use Rattle.flow_crew.specs.Sorted.{more_in, more_out};

use lane_core::Lanes;
use std::alloc::Global;
use std::marker::Model;
use tuple_trace::NoMemory;

/// The endpoints of a worker: those of its lanes in and those of its lanes out, each list in the
/// order of the lanes' numbers.
#[derive(Drop)]
pub struct Side<L: Lanes> {
    ins: Vec<L::Rx>,
    outs: Vec<L::Tx>,
}

impl<L: Lanes> Model for Side<L> {
    ghost use Rattle.std.specs.Prelude.{map};
    ghost use Rattle.flow_crew.specs.Sides.{SideIs};

    ghost Value = { SideIs };

    ghost view = { λ s. record {
      ins = map L.Rx.state s.ins.items;
      outs = map L.Tx.state s.outs.items;
    } };
}

impl<L: Lanes> Side<L> {
    /// Makes a side without lanes. Takes no memory.
    pub fn new(alloc: Global) -> Side<L>
        ensures { result ≡ empty_side }
    {
        Side {
            ins: Vec::new(alloc),
            outs: Vec::new(alloc),
        }
    }

    /// Makes a side of these endpoints. Takes no memory.
    pub fn of(ins: Vec<L::Rx>, outs: Vec<L::Tx>) -> Side<L>
        ensures { result ≡ record {
          ins = map L.Rx.state ins.items;
          outs = map L.Tx.state outs.items;
        } }
    {
        Side { ins, outs }
    }

    /// Adds the receiving endpoint of the next lane in. A refusal leaves the side as it was, and
    /// gives the endpoint up.
    pub fn push_in(&mut self, end: L::Rx) -> Result<(), NoMemory>
        ensures ok { OnOk result (self.new ≡ record self.old {
          ins = self.old.ins ++ L.Rx.state end ∷ [];
        }) }
        ensures err { OnErr result (self.new ≡ self.old) }
    {
        self.ins.push(end)?;
        Ok(())
    }

    /// Adds the sending endpoint of the next lane out. A refusal leaves the side as it was, and
    /// gives the endpoint up.
    pub fn push_out(&mut self, end: L::Tx) -> Result<(), NoMemory>
        ensures ok { OnOk result (self.new ≡ record self.old {
          outs = self.old.outs ++ L.Tx.state end ∷ [];
        }) }
        ensures err { OnErr result (self.new ≡ self.old) }
    {
        self.outs.push(end)?;
        Ok(())
    }

    /// Removes the receiving endpoint of the last lane in, if there is one. Takes no memory.
    pub fn pop_in(&mut self) -> Option<L::Rx>
        ensures some { IfSome result (λ end. self.old
            ≡ more_in (L.Rx.state end ∷ []) self.new) }
        ensures none { IfNone result (self.old.ins ≡ []) }
    {
        self.ins.pop()
    }

    /// Removes the sending endpoint of the last lane out, if there is one. Takes no memory.
    pub fn pop_out(&mut self) -> Option<L::Tx>
        ensures some { IfSome result (λ end. self.old
            ≡ more_out (L.Tx.state end ∷ []) self.new) }
        ensures none { IfNone result (self.old.outs ≡ []) }
    {
        self.outs.pop()
    }

    /// Returns the receiving and the sending endpoints. Takes no memory.
    pub fn open(self) -> (Vec<L::Rx>, Vec<L::Tx>)
        ensures ins { map L.Rx.state result.0.items ≡ self.ins }
        ensures outs { map L.Tx.state result.1.items ≡ self.outs }
    {
        let Side { ins, outs } = self;
        (ins, outs)
    }
}
