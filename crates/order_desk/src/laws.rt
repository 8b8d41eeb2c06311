//! What the definitions of orders, reports and plans keep. Each function has an empty body: its clause is a law.

ghost use Rattle.order_desk.specs.Laws.{SchemaIsChecked, OrdersAreThese, ReportMayBeWritten, ReportsInRange, AnswersAreApplication, ShareGoesOn, DeskPlanGoesOn};

/// The order schema is a checked one at both versions.
pub fn schema_is_checked()
    ensures law { SchemaIsChecked }
{}

/// By a plan of the order schema, a payload is an order exactly where it is 0xEB50 and a message that decodes, is NewOrder or Cancel, and has
/// an identifier.
pub fn orders_are_these()
    ensures law { OrdersAreThese }
{}

/// A report within its ranges may be written.
pub fn report_may_be_written()
    ensures law { ReportMayBeWritten }
{}

/// What a desk reports lies within its ranges, whatever is read.
pub fn reports_in_range()
    ensures law { ReportsInRange }
{}

/// What a desk sends are payloads of application messages.
pub fn answers_are_application()
    ensures law { AnswersAreApplication }
{}

/// The share of more messages goes on behind that of the first ones.
pub fn share_goes_on()
    ensures law { ShareGoesOn }
{}

/// Over more messages, what a desk is to send begins with what it was.
pub fn desk_plan_goes_on()
    ensures law { DeskPlanGoesOn }
{}
