//! The form of orders and reports at one version.
ghost use Rattle.std.specs.Prelude.{◌≡◌, ◌≤◌, IfOk};
ghost use Rattle.order_desk.specs.Schema.{IsVersion, order_plan};

use order_desk::order_plan;
use sbe_layout::Plan;
use std::alloc::{AllocError, Global};

/// A version of the order schema, and its plan.
#[derive(Drop)]
pub struct Form {
    pub version: u16,
    pub plan: Plan,
    pub ghost planned: { plan ≡ order_plan version },
    pub ghost least: { 1 ≤ version },
    pub ghost most: { version ≤ 2 },
}

impl Form {
    /// The form of a version.
    pub fn new(alloc: Global, version: u16) -> Result<Form, AllocError>
        requires version { IsVersion version }
        ensures version { IfOk result (λ form. form.version ≡ version) }
    {
        let plan = order_plan(alloc, version)?;
        Ok(Form { version, plan })
    }
}
