//! The variable-length data of a block.

ghost use Rattle.std.specs.Prelude.{◌≡◌, [], ◌∷◌};
ghost use Rattle.sbe_grammar.specs.Canonical.{data_bytes};
ghost use Rattle.sbe_encode.specs.Faults.{datum_fault, data_fault};
ghost use Rattle.sbe_encode.specs.Writes.{Writes};

use crate::bytes::{can_count, write_count};
use crate::fault::{EncodeError, shape_at};
use sbe_layout::DataPlan;
use sbe_prim::Order;
use sbe_value::Datum;
use std::alloc::Global;

/// Writes a datum: its length, and its bytes.
pub fn write_datum(
    alloc: Global,
    order: Order,
    plan: &DataPlan,
    datum: &Datum,
    out: &mut Vec<u8>,
) -> Result<(), EncodeError>
    ensures { Writes result out.old.items out.new.items (data_bytes order (plan.now ∷ []) (datum.now ∷ [])) (datum_fault plan.now datum.now) }
{
    match datum {
        Datum::Absent => Err(shape_at(alloc, &plan.name)),
        Datum::Present(text) => {
            if !can_count(plan.length, text.len() as u128) {
                return Err(shape_at(alloc, &plan.name));
            }
            write_count(plan.length, order, text.len() as u128, out)?;
            out.extend_from_slice(text.as_slice())?;
            Ok(())
        }
    }
}

/// Writes the data of a block.
pub fn write_data(
    alloc: Global,
    order: Order,
    plans: &[DataPlan],
    vars: &[Datum],
    out: &mut Vec<u8>,
) -> Result<(), EncodeError>
    ensures { Writes result out.old.items out.new.items (data_bytes order plans.now vars.now) (data_fault plans.now vars.now) }
{
    match (plans, vars) {
        ([plan, plans @ ..], [datum, vars @ ..]) => {
            write_datum(alloc, order, plan, datum, out)?;
            write_data(alloc, order, plans, vars, out)
        }
        ([], _) => Ok(()),
        ([_plan, _plans @ ..], []) => Ok(()),
    }
}
