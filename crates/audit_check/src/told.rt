// What the lines of an audit tell of the workers.
ghost use Rattle.std.specs.Prelude.{◌≡◌, ◌∷◌, ◌++◌, [], ℕ, IfOk, List, OnOk, length};
ghost use Rattle.audit_laws.specs.declared.audit.Line.{Line as LineIs};
ghost use Rattle.audit_check.specs.Telling.{IsWithin, Tells};

use audit_laws::{AuditEntry, Line};
use std::alloc::Global;
use std::marker::Model;
use tuple_trace::{Bytes, Items, NoMemory};

/// A count of a worker, as an audit tells it.
#[derive(Drop)]
pub struct Counted {
    pub key: Bytes,
    pub count: i64,
}

impl Model for Counted {
    ghost use Rattle.std.specs.Prelude.{List, ℕ, ℤ};

    ghost Value = { List ℕ × ℤ };

    ghost view = { λ c. (c.key, c.count) };
}

impl Counted {
    fn of(key: Bytes, count: i64) -> Counted
        ensures { result ≡ (key, count) }
    {
        Counted { key, count }
    }
}

/// What an audit tells of each worker, by the workers' numbers.
#[derive(Drop)]
pub struct Told {
    pub journals: Vec<Items<AuditEntry>>,
    pub states: Vec<Items<Counted>>,
}

impl Told {
    /// Told of `workers` workers, so far nothing.
    pub(crate) fn empty(alloc: Global, workers: u32) -> Result<Told, NoMemory>
        ensures { IfOk result (Tells workers []) }
    {
        let mut journals = Vec::new(alloc);
        let mut states = Vec::new(alloc);
        for _worker in 0..workers {
            journals.push(Items::new(alloc))?;
            states.push(Items::new(alloc))?;
        }
        Ok(Told { journals, states })
    }

    /// Adds what the next line tells.
    pub(crate) fn add(&mut self, line: Line) -> Result<(), NoMemory>
        requires journals { IsWithin (length self.old.journals.items) line }
        requires states { IsWithin (length self.old.states.items) line }
        ensures { (workers : ℕ) (above : List LineIs) → Tells workers above self.old →
            OnOk result (Tells workers (above ++ line ∷ []) self.new) }
    {
        match line {
            Line::Refused(_) => Ok(()),
            Line::Feed(_) => Ok(()),
            Line::Step { worker, entry } => {
                self.journals[worker as usize].push(entry)?;
                Ok(())
            }
            Line::State { worker, key, count } => {
                self.states[worker as usize].push(Counted::of(key, count))?;
                Ok(())
            }
        }
    }
}
