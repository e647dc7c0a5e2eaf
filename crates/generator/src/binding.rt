// The plans of the calls that open and close binders. A type comes as a number: what is planned is the definition's,
// which judges numbers, so an enum here would be no plainer. That the
// table has room for a plan holds between the two, so no type of one of them can say it.
ghost use Rattle.generator.specs.Plans.{Ready, Closing, SomeOpen};

use crate::binder::{Binder, Binding};
use crate::cell::Piece;
use crate::fault::GeneratorFault;
use crate::plan::{Plan, Scope};
use crate::planning::{judge_size, judge_type};
use crate::slot::Slot;
use crate::table::{MOST_BINDERS, Table};
use code::construct::Construct;
use code::names::Names;
use code::types::{Base, Ty};
use store::ledger::SERIALS;

impl Table {
    // A variable with the next serial, under a binder that opens with it.
    fn plan_open(&self, to: Slot, binding: Binding) -> Result<Plan, GeneratorFault>
        ensures { Ready self.now result }
    {
        if self.depth >= MOST_BINDERS {
            return Err(GeneratorFault::TooDeep);
        }
        if self.next >= SERIALS {
            return Err(GeneratorFault::NamesSpent);
        }
        let construct = Construct::Variable(self.next);
        let names = Names::one(self.next);
        Ok(Plan {
            to,
            construct,
            ty: binding.variable_type(),
            size: 1,
            names,
            scope: Scope::Opened(binding),
        })
    }

    pub(crate) fn plan_fun(&self, cell: u8, parameter: u8) -> Result<Plan, GeneratorFault>
        ensures { Ready self.now result }
    {
        let to = Slot::try_from(cell)?;
        let base = Base::try_from(parameter)?;
        self.plan_open(to, Binding::Parameter(base))
    }

    pub(crate) fn plan_let(&self, cell: u8, bound: u8) -> Result<Plan, GeneratorFault>
        ensures { Ready self.now result }
    {
        let to = Slot::try_from(cell)?;
        let [x] = self.read_each([bound])?;
        self.plan_open(to, Binding::Bound(x))
    }

    // The number of binders that were open at the latest mark.
    pub(crate) fn floor(&self) -> usize {
        self.set_marks().last().copied().unwrap_or(0)
    }

    // The latest binder, where it was opened since the latest mark.
    pub(crate) fn latest(&self) -> Result<Binder, GeneratorFault>
        ensures { SomeOpen self.now result }
    {
        let latest = self.open_binders().last().copied();
        latest
            .filter(|_| self.floor() < self.depth)
            .ok_or(GeneratorFault::NoBinder)
    }

    pub(crate) fn plan_close(&self, cell: u8, body: u8) -> Result<Plan, GeneratorFault>
        ensures { Ready self.now result }
    {
        let to = Slot::try_from(cell)?;
        let [x] = self.read_each([body])?;
        let Binder { serial, binding } = self.latest()?;
        match binding {
            Binding::Parameter(base) => plan_function(to, serial, base, &x),
            Binding::Bound(bound) => plan_let_in(to, serial, &bound, &x),
        }
    }
}

// The function with this body, its binder closed.
fn plan_function(
    to: Slot,
    serial: u16,
    parameter: Base,
    body: &Piece,
) -> Result<Plan, GeneratorFault>
    ensures { Closing result }
{
    let ty = judge_type(Ty::abstracted(parameter, body.ty))?;
    let size = judge_size(&[body.size])?;
    let construct = Construct::Function(serial, parameter, body.handle);
    Ok(Plan {
        to,
        construct,
        ty,
        size,
        names: body.names.without(serial),
        scope: Scope::Closed,
    })
}

// The let with this bound code and body, its binder closed.
fn plan_let_in(to: Slot, serial: u16, bound: &Piece, body: &Piece) -> Result<Plan, GeneratorFault>
    ensures { Closing result }
{
    let size = judge_size(&[bound.size, body.size])?;
    let construct = Construct::Let(serial, bound.handle, body.handle);
    let names = bound.names.merge(&body.names.without(serial));
    Ok(Plan {
        to,
        construct,
        ty: body.ty,
        size,
        names,
        scope: Scope::Closed,
    })
}
