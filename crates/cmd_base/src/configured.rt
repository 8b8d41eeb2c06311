//! What a command reads from CONFIG.

ghost use Rattle.std.specs.Prelude.{◌≡◌, ℕ, ◌+◌, ◌≤◌, List, Some, Ok, Result, IfOk, IfErr, IsErrOf};
ghost use Rattle.gw_outside.specs.Faults.{HasRisen};
ghost use Rattle.schema_toml.specs.declared.fault.ConfigFault.{ConfigFault};
ghost use Rattle.schema_toml.specs.Faults.{Tells, limited, text_limit};
ghost use Rattle.schema_load.specs.Load.{seen_by};
ghost use Rattle.cmd_base.specs.Texts.{IsUnconfigured, ReadsWithin, Refuses};

use crate::status::Status;
use crate::text::{TextFault, read_text};
use cmd_config::{Configuration, Purpose, Role, Settings, read_configuration, read_settings};
use gw_outside::Source;
use sbe_layout::Plan;
use sbe_schema::Checked;
use schema_load::{load, load_checked};
use schema_toml::{ConfigFault, TEXT_LIMIT};
use std::alloc::Global;

/// What a configuration text spells.
pub trait Configured: Sized + Drop {
    /// What it is read for: a role, say.
    type For: Copy;

    /// What its texts spell.
    ghost Told: { Type 0 };

    /// What it holds of that.
    ghost told: { Self → Told };

    /// What a text that is not too long spells, or why it spells nothing.
    ghost reading: { Self.For → List ℕ → Result Told ConfigFault };

    /// What is known of it whatever the text.
    ghost is_valid: { Self → Type 0 };

    /// Reads a text.
    ///
    /// # Errors
    /// The fault of the text.
    fn read(alloc: Global, wanted: Self::For, text: &[u8]) -> Result<Self, ConfigFault>
        ensures value { Tells (seen_by told result) (limited (reading wanted) text.now) }
        ensures valid { IfOk result is_valid };
}

impl Configured for Settings {
    ghost use Rattle.schema_toml.specs.Faults.{of_text};
    ghost use Rattle.cmd_config.specs.Settings.{IsInRange, settings_of_document};
    ghost use Rattle.cmd_config.specs.declared.settings.Settings as settings;

    type For = ();

    ghost Told = { settings.Settings };

    ghost told = { λ settings. settings };

    ghost reading = { λ _ text. of_text (settings_of_document text) };

    ghost is_valid = { IsInRange };

    fn read(alloc: Global, _wanted: (), text: &[u8]) -> Result<Settings, ConfigFault> {
        read_settings(alloc, text)
    }
}

impl Configured for Configuration {
    ghost use Rattle.schema_toml.specs.Faults.{of_text};
    ghost use Rattle.cmd_config.specs.Settings.{IsConfigurationInRange, configuration_of_document};
    ghost use Rattle.cmd_config.specs.declared.configuration.Configuration as configurations;
    ghost use Rattle.cmd_config.specs.declared.purpose.Purpose.TheVariants as purposes;

    type For = Role;

    ghost Told = { configurations.Configuration };

    ghost told = { λ configuration. configuration };

    ghost reading = { λ role text. of_text (configuration_of_document (purposes.Live role) text) };

    ghost is_valid = { IsConfigurationInRange };

    fn read(alloc: Global, role: Role, text: &[u8]) -> Result<Configuration, ConfigFault> {
        read_configuration(alloc, Purpose::Live(role), text)
    }
}

impl Configured for Plan {
    ghost use Rattle.schema_toml.specs.Text.{schema_of_text};
    ghost use Rattle.sbe_layout.specs.declared.plan.Plan as plans;
    ghost use Rattle.sbe_layout.specs.Legal.{LegalPlan};
    ghost use Rattle.schema_load.specs.Load.{plan_of_read};

    type For = ();

    ghost Told = { plans.Plan };

    ghost told = { λ plan. plan };

    ghost reading = { λ _ text. plan_of_read (schema_of_text text) };

    ghost is_valid = { LegalPlan };

    fn read(alloc: Global, _wanted: (), text: &[u8]) -> Result<Plan, ConfigFault> {
        load(alloc, text)
    }
}

// A checked schema stands for its plan, which is laid out as it is needed.
impl Configured for Checked {
    ghost use Rattle.schema_toml.specs.Text.{schema_of_text};
    ghost use Rattle.sbe_layout.specs.declared.plan.Plan as plans;
    ghost use Rattle.schema_load.specs.Load.{plan_of_read, plan_in};

    type For = ();

    ghost Told = { plans.Plan };

    ghost told = { plan_in };

    ghost reading = { λ _ text. plan_of_read (schema_of_text text) };

    ghost is_valid = { λ _. Unit {0} };

    fn read(alloc: Global, _wanted: (), text: &[u8]) -> Result<Checked, ConfigFault> {
        load_checked(alloc, text)
    }
}

/// Reads CONFIG, for what is wanted of it.
///
/// # Errors
/// `Config` with the fault of the text, `InputFault` where the source failed, and `Memory`.
pub fn read_config<S: Source, T: Configured>(
    alloc: Global,
    wanted: T::For,
    config: &mut S,
) -> Result<T, Status>
    ensures valid { IfOk result T.is_valid }
    ensures ok { IfOk result (λ told. (text : List ℕ) → S.left config.old ≡ Some text → limited (T.reading wanted) text ≡ Ok (T.told told)) }
    ensures refused { IfErr result (λ status. (text : List ℕ) → S.left config.old ≡ Some text → Refuses status (limited (T.reading wanted) text)) }
    ensures unconfigured { IfErr result IsUnconfigured }
    ensures within { ReadsWithin (S.left config.old) (S.left config.new) (text_limit + 1) }
    ensures counted { S.faults config.old ≤ S.faults config.new }
    ensures fault { IsErrOf result Status.InputFault → HasRisen (S.faults config.old) (S.faults config.new) }
{
    let text = match read_text(alloc, config, TEXT_LIMIT) {
        Ok(text) => text,
        Err(TextFault::Source) => return Err(Status::InputFault),
        Err(TextFault::Memory) => return Err(Status::Memory),
    };
    match T::read(alloc, wanted, text.as_slice()) {
        Ok(told) => Ok(told),
        Err(fault) if fault.is_memory() => Err(Status::Memory),
        Err(fault) => Err(Status::Config(fault)),
    }
}
