//! Laws of configurations, in the subject's own words. Each function has an empty
//! body: its clause is a statement about every table.

ghost use Rattle.cmd_config.specs.Laws.{ConfigurationsKeepTheRole, UnknownKeyIsLeast};

/// A configuration that is read for a role, on live connections or over recorded bytes, has the flows, the senders, the desks and
/// the book that the role may have there.
pub fn configurations_keep_the_role()
    ensures law { ConfigurationsKeepTheRole }
{}

/// Of each table of a TOML document, the unknown key that is reported is the least by its bytes that is not known.
pub fn unknown_key_is_least()
    ensures law { UnknownKeyIsLeast }
{}
