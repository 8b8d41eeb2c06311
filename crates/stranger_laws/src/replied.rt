//! What one reply makes of a message that does not open the session.

ghost use Rattle.stranger_laws.specs.Replied.{OutsideStays, KeylessRecordsNothing};

/// Where the session is not open, a message that does not open it is not accepted as one of the peer's flow, and leaves it so.
pub fn outside_stays()
    ensures law { OutsideStays }
{}

/// There a message that does not give the keys adds no record, and what is recorded stays.
pub fn keyless_records_nothing()
    ensures law { KeylessRecordsNothing }
{}
