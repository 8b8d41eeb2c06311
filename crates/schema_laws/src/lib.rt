//! Laws of a checked schema, in the subject's own words: which two tables break the rules by one name, one id or
//! one number, that a checked schema has no such two, and that the walk which they speak of is the schema's tables, each once.
//! Each function has an empty body: its clause is a statement about every schema.
#![tactic(auto)]

ghost use Rattle.schema_laws.specs.Pairs.{DuplicateNamesAreFound, DuplicateIdsAreFound, BadValuesAreFound, BadBitsAreFound};
ghost use Rattle.schema_laws.specs.Kept.{CheckedNamesDiffer, CheckedTypesAreNoPrimitives, CheckedIdsDiffer, CheckedNumbersDiffer};
ghost use Rattle.schema_laws.specs.Standing.{WalkTellsTruly, WalkLeavesNoneOut, WalkRepeatsNone};
ghost use Rattle.schema_laws.specs.Order.{WalkGoesInOrder};

/// A table breaks the rule of names exactly where a table before it, in the same list or block, has the same name,
/// or where it is a type that is named as a primitive.
pub fn duplicate_names_are_found()
    ensures law { DuplicateNamesAreFound }
{}

/// A table breaks the rule of ids exactly where a table before it has the same id, and both are messages, or both are
/// fields, groups and data of one message, at any depth.
pub fn duplicate_ids_are_found()
    ensures law { DuplicateIdsAreFound }
{}

/// A value breaks the rule of enums exactly where a value before it in the same enum has the same number, or where its
/// number is none of the primitive's.
pub fn bad_values_are_found()
    ensures law { BadValuesAreFound }
{}

/// A bit breaks the rule of sets exactly where a bit before it in the same set has the same number, or where it is past the
/// width of the primitive.
pub fn bad_bits_are_found()
    ensures law { BadBitsAreFound }
{}

/// No two tables of a checked schema that are in one list or block have one name.
pub fn checked_names_differ()
    ensures law { CheckedNamesDiffer }
{}

/// No type of a checked schema has the name of a primitive.
pub fn checked_types_are_no_primitives()
    ensures law { CheckedTypesAreNoPrimitives }
{}

/// No two messages of a checked schema have one id, nor have two elements of one message.
pub fn checked_ids_differ()
    ensures law { CheckedIdsDiffer }
{}

/// No two values of one enum, and no two bits of one set, have one number in a checked schema.
pub fn checked_numbers_differ()
    ensures law { CheckedNumbersDiffer }
{}

/// At each place of the walk stands the table that the schema's own lists have at its path.
pub fn walk_tells_truly()
    ensures law { WalkTellsTruly }
{}

/// Each path at which the schema has a table is a place of the walk.
pub fn walk_leaves_none_out()
    ensures law { WalkLeavesNoneOut }
{}

/// No path is twice in the walk.
pub fn walk_repeats_none()
    ensures law { WalkRepeatsNone }
{}

/// Each place of the walk comes before all those behind it: types before messages, a table before what lies in it, and
/// all that lies in it before what stands behind it.
pub fn walk_goes_in_order()
    ensures law { WalkGoesInOrder }
{}
