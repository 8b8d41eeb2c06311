//! The check of a schema: one walk over its tables, which keeps the least fault
//! found so far and its place.

ghost use Rattle.std.specs.Prelude.{◌≡◌, None, IfOk, OnOk, IfErr, IsTrue, []};
ghost use Rattle.sbe_schema.specs.Search.{found_at};
ghost use Rattle.sbe_schema.specs.Checked.{is_checked, fault_of, Explains, IsLeast, WalkFinds, FaultTells, KindTells};

use crate::index::Index;
use crate::rules::rule_of_whole;
use crate::sets::NumberSet;
use crate::state::State;
use crate::walk::{walk_messages, walk_types};
use crate::{Checked, Schema, SchemaFault, SchemaKind};
use sbe_value::Path;
use std::alloc::{AllocError, Global};

/// Checks a schema by the rules of this project's profile of SBE 1.0. A
/// refusal gives the schema back, with the least fault that occurs, at its
/// first place: types before messages, and a table before what lies in it.
/// Want of memory is `SchemaKind::Memory` with the empty path.
#[tactic(auto, using(crate::proofs::Fold::checked_by_none))]
pub fn check(alloc: Global, schema: Schema) -> Result<Checked, (Schema, SchemaFault)>
    ensures same { IfOk result (λ checked. checked.schema ≡ schema) }
    ensures checked { OnOk result (IsTrue (is_checked schema)) }
    ensures sound { OnOk result (fault_of schema ≡ None) }
    ensures cause { IfErr result (λ refused. Explains schema refused.1) }
    ensures least { IfErr result (λ refused. IsLeast schema refused.1) }
    ensures back { IfErr result (λ refused. refused.0 ≡ schema) }
{
    match find_fault(alloc, &schema) {
        Ok(None) => Ok(Checked { schema }),
        Ok(Some(fault)) => Err((schema, fault)),
        Err(_) => {
            let fault = SchemaFault {
                kind: SchemaKind::Memory,
                path: Path::new(alloc),
            };
            Err((schema, fault))
        }
    }
}

// The least fault of a schema at its first place.
fn find_fault(alloc: Global, schema: &Schema) -> Result<Option<SchemaFault>, AllocError>
    ensures { IfOk result (λ fault. fault ≡ fault_of schema.now) }
{
    let index = Index::new(alloc, schema)?;
    let fault = fault_of_whole(alloc, rule_of_whole(schema));
    let mut state = State {
        alloc,
        fault,
        parent_path: Vec::new(alloc),
        ids: NumberSet::new(alloc),
    };
    walk_types(&index, &mut state, schema.types.as_slice())?;
    walk_messages(&index, &mut state, schema.messages.as_slice())?;
    let State { fault, .. } = state;
    Ok(fault)
}

// A fault of the schema as a whole.
fn fault_of_whole(alloc: Global, rule: Option<SchemaKind>) -> Option<SchemaFault>
    ensures { result ≡ found_at rule [] }
{
    match rule {
        None => None,
        Some(kind) => Some(SchemaFault {
            kind,
            path: Path::new(alloc),
        }),
    }
}

/// The law that the walk finds each fault exactly where it occurs: so it finds none exactly in a checked schema,
/// and else the least that occurs.
pub fn fault_tells(schema: &Schema)
    ensures each { WalkFinds schema.now }
    ensures none { FaultTells schema.now }
    ensures least { KindTells schema.now }
{}
