// The plans of the calls that leave the binders as they are. Operators and truths come as numbers: what is planned is
// the definition's, which judges numbers, so enums here would be no plainer. Each plan is written out: one for JOIN and
// APPLY, or one that builds all, would take as many arguments as it saves lines.
// That a plan leaves the binders alone is said of each: the type of plans serves those too that open and close.
ghost use Rattle.std.specs.Prelude.{◌≡◌, ◌+◌, ◌≤◌, length, sum, Some, Ok, nat_le};
ghost use Rattle.code.specs.Code.{Code};
ghost use Rattle.store.specs.Meaning.{Codes, meant};
ghost use Rattle.generator.specs.declared.table.Table.{Table as KeptTable};
ghost use Rattle.model.specs.Model.{stated, judge, typed as typed_of, too_large, leaf, join_plan, choose_plan, apply_plan};
ghost use Rattle.model.specs.Calls.{num_plan, truth_plan, input_plan};
ghost use Rattle.generator.specs.Reads.{read, read_result};
ghost use Rattle.generator.specs.Standing.{Stands};
ghost use Rattle.generator.specs.Planning.{Planned};
ghost use Rattle.generator.specs.Plans.{Keeping};

use crate::fault::GeneratorFault;
use crate::plan::{Plan, Scope};
use crate::slot::Slot;
use crate::table::Table;
use code::construct::Construct;
use code::names::Names;
use code::operator::Operator;
use code::types::{Base, Ty};
use store::ledger::{INPUTS, LARGEST};

// The size of a construct over parts of these sizes, where it is not too large.
pub(crate) fn judge_size(parts: &[u16]) -> Result<u16, GeneratorFault>
    requires { length parts.now ≤ 3 }
    ensures { read_result (λ n. n) result ≡ judge (nat_le (1 + sum parts.now) 4096) too_large (Ok (1 + sum parts.now)) }
{
    let size = 1 + parts.iter().map(|part| u32::from(*part)).sum::<u32>();
    if size > u32::from(LARGEST) {
        return Err(GeneratorFault::TooLarge);
    }
    Ok(size as u16)
}

// The type, where a construct has one.
pub(crate) fn judge_type(ty: Option<Ty>) -> Result<Ty, GeneratorFault>
    ensures { read_result (λ t. t) result ≡ typed_of ty Ok }
{
    ty.ok_or(GeneratorFault::WrongType)
}

// A construct without parts, into a cell.
pub(crate) fn plan_leaf(cell: u8, construct: Construct, base: Base) -> Result<Plan, GeneratorFault>
    ensures keeps { Keeping result }
    ensures planned { (code : Codes) (t : KeptTable) (x : Code) → meant code construct ≡ Some x → Planned code t (leaf (read code t) cell x (Ty.Plain base)) result }
{
    let to = Slot::try_from(cell)?;
    Ok(Plan {
        to,
        construct,
        ty: Ty::Plain(base),
        size: 1,
        names: Names::none(),
        scope: Scope::Kept,
    })
}

pub(crate) fn plan_num(cell: u8, value: i32) -> Result<Plan, GeneratorFault>
    ensures keeps { Keeping result }
    ensures planned { (code : Codes) (t : KeptTable) → Planned code t (num_plan (read code t) cell value) result }
{
    plan_leaf(cell, Construct::Number(value), Base::Number)
}

pub(crate) fn plan_truth(cell: u8, truth: u8) -> Result<Plan, GeneratorFault>
    ensures keeps { Keeping result }
    ensures planned { (code : Codes) (t : KeptTable) → Planned code t (truth_plan (read code t) cell truth) result }
{
    if truth > 1 {
        return Err(GeneratorFault::BadArgument);
    }
    plan_leaf(cell, Construct::Truth(truth == 1), Base::Truth)
}

pub(crate) fn plan_input(cell: u8, input: u8) -> Result<Plan, GeneratorFault>
    ensures keeps { Keeping result }
    ensures planned { (code : Codes) (t : KeptTable) → Planned code t (input_plan (read code t) cell input) result }
{
    if input >= INPUTS {
        return Err(GeneratorFault::BadArgument);
    }
    plan_leaf(cell, Construct::Input(input), Base::Number)
}

impl Table {
    pub(crate) fn plan_join(
        &self,
        cell: u8,
        operator: u8,
        left: u8,
        right: u8,
    ) -> Result<Plan, GeneratorFault>
        ensures keeps { Keeping result }
        ensures planned { (code : Codes) → Stands code self.now → Planned code self.now (join_plan stated (read code self.now) cell operator left right) result }
    {
        let to = Slot::try_from(cell)?;
        let operator = Operator::try_from(operator)?;
        let [x, y] = self.read_each([left, right])?;
        let ty = judge_type(Ty::joined(operator, x.ty, y.ty))?;
        let size = judge_size(&[x.size, y.size])?;
        let construct = Construct::Join(operator, x.handle, y.handle);
        Ok(Plan {
            to,
            construct,
            ty,
            size,
            names: x.names.merge(&y.names),
            scope: Scope::Kept,
        })
    }

    pub(crate) fn plan_choose(
        &self,
        cell: u8,
        condition: u8,
        then: u8,
        otherwise: u8,
    ) -> Result<Plan, GeneratorFault>
        ensures keeps { Keeping result }
        ensures planned { (code : Codes) → Stands code self.now → Planned code self.now (choose_plan stated (read code self.now) cell condition then otherwise) result }
    {
        let to = Slot::try_from(cell)?;
        let [x, y, z] = self.read_each([condition, then, otherwise])?;
        let ty = judge_type(Ty::chosen(x.ty, y.ty, z.ty))?;
        let size = judge_size(&[x.size, y.size, z.size])?;
        let construct = Construct::Choose(x.handle, y.handle, z.handle);
        let names = x.names.merge(&y.names.merge(&z.names));
        Ok(Plan {
            to,
            construct,
            ty,
            size,
            names,
            scope: Scope::Kept,
        })
    }

    pub(crate) fn plan_apply(
        &self,
        cell: u8,
        function: u8,
        argument: u8,
    ) -> Result<Plan, GeneratorFault>
        ensures keeps { Keeping result }
        ensures planned { (code : Codes) → Stands code self.now → Planned code self.now (apply_plan stated (read code self.now) cell function argument) result }
    {
        let to = Slot::try_from(cell)?;
        let [x, y] = self.read_each([function, argument])?;
        let ty = judge_type(Ty::applied(x.ty, y.ty))?;
        let size = judge_size(&[x.size, y.size])?;
        let construct = Construct::Apply(x.handle, y.handle);
        Ok(Plan {
            to,
            construct,
            ty,
            size,
            names: x.names.merge(&y.names),
            scope: Scope::Kept,
        })
    }
}
