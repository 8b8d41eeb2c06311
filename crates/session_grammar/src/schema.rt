//! The session messages of FIXP 1.1 as a schema, a value of the logic for any version, and what it is.
//! It stands on the definitions of `sbe_schema`. Each function has an empty body: its clause is a law.

ghost use Rattle.session_grammar.specs.SchemaLaws.{SessionIsChecked, SessionBlocks, ProjectsToZero};

/// The schema of the session messages is a checked one at versions 0 and 1.
pub fn session_is_checked()
    ensures law { SessionIsChecked }
{}

/// Its messages have the block lengths of the profile's table, in bytes, at both versions.
pub fn session_blocks()
    ensures law { SessionBlocks }
{}

/// What version 1 of the schema has of version 0 is version 0.
pub fn projects_to_zero()
    ensures law { ProjectsToZero }
{}
