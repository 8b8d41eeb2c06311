//! Older versions of checked schemas, and what an older reader sees of a newer message.

ghost use Rattle.std.specs.Prelude.{◌≡◌, ℕ, List, IsTrue};
ghost use Rattle.schema_types.specs.declared.schema.Schema.{Schema};
ghost use Rattle.sbe_value.specs.declared.message.Message.{Message};
ghost use Rattle.sbe_schema.specs.Checked.{is_checked};
ghost use Rattle.sbe_layout.specs.Plans.{plan_of, HasTemplate};
ghost use Rattle.sbe_layout.specs.declared.plan.MessagePlan.{MessagePlan};
ghost use Rattle.sbe_layout.specs.declared.plan.Plan.{Plan};
ghost use Rattle.sbe_grammar.specs.Spelling.{Spells, SpellsBy};
ghost use Rattle.sbe_skew.specs.Absences.{LaterAreAbsent};
ghost use Rattle.sbe_skew.specs.Extends.{Extends};
ghost use Rattle.sbe_skew.specs.Projected.{projected};
ghost use Rattle.sbe_skew.specs.Restricted.{restricted};

/// The projection of a checked schema to any version is checked.
pub fn older_is_checked()
    ensures law { (schema : Schema) (version : ℕ) → IsTrue (is_checked schema)
        → IsTrue (is_checked (projected version schema)) }
{}

/// Bytes that spell a message by a checked schema spell its restriction by the schema's projection to the same version,
/// where that has the message's template.
pub fn older_version()
    ensures law { (schema : Schema) (version : ℕ) (bytes : List ℕ) (m : Message) → IsTrue (is_checked schema)
        → HasTemplate m.template (plan_of (projected version schema)).messages → Spells (plan_of schema) bytes m
        → Spells (plan_of (projected version schema)) bytes (restricted (plan_of schema) m version) }
{}

/// A reader by an older schema that the newer extends sees of a newer message its restriction to the older version:
/// bytes that spell a message by the newer spell its restriction by the older, where that has the message's template.
pub fn older_reader()
    ensures law { (newer older : Schema) (bytes : List ℕ) (m : Message) → IsTrue (is_checked newer) → Extends newer older
        → HasTemplate m.template (plan_of older).messages → Spells (plan_of newer) bytes m
        → Spells (plan_of older) bytes (restricted (plan_of newer) m older.version) }
{}

/// A message has exactly those elements absent that came with a later version than the one in its header, at every depth.
pub fn later_absent()
    ensures law { (schema : Plan) (layout : MessagePlan) (bytes : List ℕ) (m : Message) (spelled : SpellsBy schema layout bytes m)
        → LaterAreAbsent spelled.version layout.root m.root }
{}
