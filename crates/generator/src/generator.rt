// A generator over any store, and how it has a plan made.
ghost use Rattle.std.specs.Prelude.{◌≡◌, IfOk};
ghost use Rattle.store.specs.Meaning.{Codes};
ghost use Rattle.model.specs.Model.{fresh};
ghost use Rattle.generator.specs.Plans.{RoomFor};
ghost use Rattle.generator.specs.Reads.{read};

use crate::fault::GeneratorFault;
use crate::plan::Plan;
use crate::table::Table;
use store::meaning::Store;

// The store by value, beside a plain inner table.
#[derive(Drop)]
pub struct Generator<S> {
    pub(crate) store: S,
    pub(crate) table: Table,
}

impl<S: Store> Generator<S> {
    // A fresh generator: all cells empty, no binder open, no mark, the first serial 0.
    pub fn new(store: S) -> Generator<S>
        ensures store { result.store ≡ store }
        ensures fresh { (code : Codes) → read code result.table ≡ fresh }
    {
        Generator {
            store,
            table: Table::new(),
        }
    }

    // Has the plan's code made, and carries the plan out; where the store refuses, nothing changes.
    pub(crate) fn carry_out(&mut self, plan: &Plan) -> Result<(), GeneratorFault>
        requires { RoomFor self.old.table plan.now.scope }
    {
        let handle = self.store.make(plan.construct)?;
        self.table.carry_out(plan, handle);
        Ok(())
    }

    // Carries out a plan that opens a binder, and answers the serial that the binder has.
    pub(crate) fn open(&mut self, plan: &Plan) -> Result<u16, GeneratorFault>
        requires { RoomFor self.old.table plan.now.scope }
        ensures { IfOk result (λ serial. serial ≡ self.old.table.next) }
    {
        let serial = self.table.next;
        self.carry_out(plan)?;
        Ok(serial)
    }
}
