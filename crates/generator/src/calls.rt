// The calls of a generator, each refused by the first of its refusals that applies. Cells, operators, types and truths
// come as numbers: enums would ask more of the caller than a call that refuses what is out of range.
// That the store stays as it was is what some calls promise, not a fact about a generator, so no type says it.
ghost use Rattle.std.specs.Prelude.{◌≡◌, IfOk};

use crate::fault::GeneratorFault;
use crate::generator::Generator;
use crate::planning::{plan_input, plan_num, plan_truth};
use store::meaning::Store;

impl<S: Store> Generator<S> {
    // A number into a cell.
    pub fn num(&mut self, cell: u8, value: i32) -> Result<(), GeneratorFault> {
        let plan = plan_num(cell, value)?;
        self.carry_out(&plan)
    }

    // A truth, 0 or 1, into a cell.
    pub fn truth(&mut self, cell: u8, truth: u8) -> Result<(), GeneratorFault> {
        let plan = plan_truth(cell, truth)?;
        self.carry_out(&plan)
    }

    // An input, 0 to 7, into a cell.
    pub fn input(&mut self, cell: u8, input: u8) -> Result<(), GeneratorFault> {
        let plan = plan_input(cell, input)?;
        self.carry_out(&plan)
    }

    // Two cells' codes under an operator, into a cell.
    pub fn join(
        &mut self,
        cell: u8,
        operator: u8,
        left: u8,
        right: u8,
    ) -> Result<(), GeneratorFault> {
        let plan = self.table.plan_join(cell, operator, left, right)?;
        self.carry_out(&plan)
    }

    // A choice between two cells' codes by a third, into a cell.
    pub fn choose(
        &mut self,
        cell: u8,
        condition: u8,
        then: u8,
        otherwise: u8,
    ) -> Result<(), GeneratorFault> {
        let plan = self.table.plan_choose(cell, condition, then, otherwise)?;
        self.carry_out(&plan)
    }

    // One cell's code applied to another's, into a cell.
    pub fn apply(&mut self, cell: u8, function: u8, argument: u8) -> Result<(), GeneratorFault> {
        let plan = self.table.plan_apply(cell, function, argument)?;
        self.carry_out(&plan)
    }

    // Opens a function binder with a parameter of this type, its variable into a cell; answers its serial.
    pub fn fun(&mut self, cell: u8, parameter: u8) -> Result<u16, GeneratorFault>
        ensures { IfOk result (λ serial. serial ≡ self.old.table.next) }
    {
        let plan = self.table.plan_fun(cell, parameter)?;
        self.open(&plan)
    }

    // Opens a let binder over a cell's code, its variable into a cell; answers its serial.
    pub fn let_in(&mut self, cell: u8, bound: u8) -> Result<u16, GeneratorFault>
        ensures { IfOk result (λ serial. serial ≡ self.old.table.next) }
    {
        let plan = self.table.plan_let(cell, bound)?;
        self.open(&plan)
    }

    // Ends the latest open binder with a cell's code as body, the function or let into a cell.
    pub fn close(&mut self, cell: u8, body: u8) -> Result<(), GeneratorFault> {
        let plan = self.table.plan_close(cell, body)?;
        self.carry_out(&plan)
    }

    // Copies a cell.
    pub fn copy(&mut self, cell: u8, from: u8) -> Result<(), GeneratorFault>
        ensures kept { self.new.store ≡ self.old.store }
    {
        self.table.copy(cell, from)
    }

    // Empties a cell.
    pub fn clear(&mut self, cell: u8) -> Result<(), GeneratorFault>
        ensures kept { self.new.store ≡ self.old.store }
    {
        self.table.clear(cell)
    }

    // Sets a mark.
    pub fn mark(&mut self) -> Result<(), GeneratorFault>
        ensures kept { self.new.store ≡ self.old.store }
    {
        self.table.mark()
    }

    // Takes the latest mark away; no binder may be open since.
    pub fn finish(&mut self) -> Result<(), GeneratorFault>
        ensures kept { self.new.store ≡ self.old.store }
    {
        self.table.finish()
    }

    // Takes the latest mark away, and abandons every binder opened since.
    pub fn leave(&mut self) -> Result<(), GeneratorFault>
        ensures kept { self.new.store ≡ self.old.store }
    {
        self.table.leave()
    }
}
