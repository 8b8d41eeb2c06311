//! Orders and what becomes of them: the schema of orders as a value, its messages as enums and structs, and the desk, a
//! function from an order to its reports. A desk is immediate-or-cancel: what does not trade at once expires.
#![tactic(auto)]

mod answering;
mod desk;
mod laws;
mod messages;
mod order;
mod reading;
mod report;
mod schema;
mod types;
mod writing;

pub use answering::answers;
pub use desk::{refusal, refused, reports};
pub use laws::{
    answers_are_application, desk_plan_goes_on, orders_are_these, report_may_be_written,
    reports_in_range, schema_is_checked, share_goes_on,
};
pub use order::{NewOrder, Order, OrderFault, Side, Symbol};
pub use reading::read_order;
pub use report::{RejectCode, Report, ReportKind, ReportList};
pub use schema::{order_plan, order_schema};
pub use writing::write_report;
