//! A law of lines and feeds, which has an empty body.

ghost use Rattle.gw_lines.specs.Laws.{LinesOfAText};

/// The lines that a reader gives of all bytes read, and what stands behind the last feed, are the lines of that text.
pub fn lines_of_a_text()
    ensures law { LinesOfAText }
{}
