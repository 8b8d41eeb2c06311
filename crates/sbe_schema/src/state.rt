//! What a walk over a schema keeps: the least fault so far, and the steps to the present table.

ghost use Rattle.std.specs.Prelude.{◌≡◌, [], ◌∷◌, ◌++◌, IfOk, OnOk};
ghost use Rattle.sbe_value.specs.declared.path.Step.TheVariants.{Key, At};
ghost use Rattle.sbe_schema.specs.Places.{key_of, path_of};
ghost use Rattle.sbe_schema.specs.Search.{rank, found_at, better};

use crate::fault::{PathStep, TableArray};
use crate::sets::NumberSet;
use crate::{SchemaFault, SchemaKind};
use sbe_value::{Bytes, Path, Step};
use std::alloc::{AllocError, Global};

/// What a walk keeps.
#[derive(Drop)]
pub struct State {
    /// The allocator of its paths and sets.
    pub alloc: Global,
    /// The least fault so far, at its first place.
    pub fault: Option<SchemaFault>,
    /// The steps to the table that the present one lies in.
    pub parent_path: Vec<PathStep>,
    /// The ids that stand before in the present message.
    pub ids: NumberSet,
}

/// Keeps a broken rule at a place if it is less than the one that is kept.
pub fn note(
    state: &mut State,
    rule: Option<SchemaKind>,
    path_step: PathStep,
) -> Result<(), AllocError>
    ensures fault { OnOk result (state.new.fault
        ≡ better state.old.fault (found_at rule (state.old.parent_path.items ++ path_step ∷ []))) }
    ensures parent_path { state.new.parent_path.items ≡ state.old.parent_path.items }
    ensures ids { state.new.ids ≡ state.old.ids }
{
    let Some(kind) = rule else {
        return Ok(());
    };
    if let Some(best) = &state.fault {
        if rank(best.kind) <= rank(kind) {
            return Ok(());
        }
    }
    let path = path_to(state.alloc, state.parent_path.as_slice(), path_step)?;
    state.fault = Some(SchemaFault { kind, path });
    Ok(())
}

// The place of a rule among all.
fn rank(kind: SchemaKind) -> u8
    ensures { result ≡ rank kind }
{
    match kind {
        SchemaKind::DuplicateName => 1,
        SchemaKind::DuplicateId => 2,
        SchemaKind::UnknownType => 3,
        SchemaKind::BadOffset => 4,
        SchemaKind::ShortLength => 5,
        SchemaKind::BadEnum => 6,
        SchemaKind::BadSet => 7,
        SchemaKind::BadDimension => 8,
        SchemaKind::BadData => 9,
        SchemaKind::IllegalExtension => 10,
        SchemaKind::OverLimit => 11,
        SchemaKind::Memory => 12,
    }
}

/// The path to a table, by the steps to the table that it lies in and its own step.
pub fn path_to(
    alloc: Global,
    parent_path: &[PathStep],
    path_step: PathStep,
) -> Result<Path, AllocError>
    ensures { IfOk result (λ path. path ≡ path_of (parent_path.now ++ path_step ∷ [])) }
{
    let mut path = Path::new(alloc);
    for parent in parent_path {
        push_path_step(alloc, &mut path, *parent)?;
    }
    push_path_step(alloc, &mut path, path_step)?;
    Ok(path)
}

fn push_path_step(alloc: Global, path: &mut Path, path_step: PathStep) -> Result<(), AllocError>
    ensures { OnOk result (path.new ≡ path.old ++ Key (key_of path_step.array) ∷ At path_step.at ∷ []) }
{
    let key = Bytes::from_slice(alloc, array_key(path_step.array))?;
    path.push(Step::Key(key))?;
    path.push(Step::At(path_step.at))
}

/// The key of a list of tables in the text of a schema.
pub fn array_key(array: TableArray) -> &'static [u8]
    ensures { result.now ≡ key_of array }
{
    match array {
        TableArray::Types => b"type",
        TableArray::Values => b"values",
        TableArray::Bits => b"bits",
        TableArray::Members => b"members",
        TableArray::Messages => b"message",
        TableArray::Fields => b"fields",
        TableArray::Groups => b"groups",
        TableArray::Data => b"data",
    }
}
