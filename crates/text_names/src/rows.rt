//! Worked rows of the definitions: what a person writes, what is wrong, what is shown.

ghost use Rattle.std.specs.Prelude.{◌≡◌, [], ◌∷◌, ◌++◌, Ok, Err, codes};
ghost use Rattle.sbe_layout.specs.declared.items.ItemKind.TheVariants.{Enum, Set, Number};
ghost use Rattle.sbe_prim.specs.declared.Primitive.TheVariants.{Char, UInt8};
ghost use Rattle.text_names.specs.Bare.{bare};
ghost use Rattle.text_names.specs.Lines.{narrowed_message};
ghost use Rattle.text_names.specs.Named.{named_text};
ghost use Rattle.text_names.specs.Sample.{in_marks, sample, shown_text, strict, strict_lines, written};
ghost use Rattle.text_names.specs.Values.{array, datum, item_value};
ghost use Rattle.text_names.specs.declared.mistake.Wrong.TheVariants as wrong;

/// What a person wrote and the strict lines of it; names and texts that are none; strict lines and what is shown of them.
pub fn worked_rows()
    ensures wide { narrowed_message sample written ≡ strict }
    ensures shown { named_text sample strict_lines ≡ shown_text }
    ensures unknown { item_value sample.listings (Enum UInt8 0) (codes "Bye") ≡ Err (wrong.Value, codes "Bye") }
    ensures number { item_value sample.listings (Enum UInt8 0) (codes "3") ≡ Ok (codes "3") }
    ensures absent { item_value sample.listings (Enum UInt8 0) (codes "absent") ≡ Ok (codes "absent") }
    ensures letters { item_value sample.listings (Enum Char 1) (in_marks (codes "12")) ≡ Err (wrong.Single, in_marks (codes "12")) }
    ensures twice { item_value sample.listings (Set UInt8 2) (codes "Hidden|PostOnly|Hidden") ≡ Err (wrong.Twice, codes "Hidden") }
    ensures choice { item_value sample.listings (Set UInt8 2) (codes "Hidden|3") ≡ Err (wrong.Choice, codes "3") }
    ensures escape { datum (in_marks (codes "\\q")) ≡ Err (wrong.Escape, in_marks (codes "\\q")) }
    ensures open { datum (34 ∷ codes "hi") ≡ Err (wrong.Open, 34 ∷ codes "hi") }
    ensures behind { array (in_marks [] ++ codes "x") ≡ Err (wrong.Behind, in_marks [] ++ codes "x") }
{}
