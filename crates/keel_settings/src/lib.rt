//! The options of a store as a workload sets them.
//!
//! - `Settings` keeps a value for each option, always within its range, from the one that it has where none was
//!   set. `set` changes one by its name.
#![tactic(auto)]

ghost use Rattle.std.specs.Prelude.{◌≡◌, ◌↔◌, IsOk, IfErr, OnOk, OnErr};
ghost use Rattle.keel_base.specs.Options.{AreInRange, AreDefaults, IsWithin, SetsOne, standard, range_of};

use keel_base::{OptionName, Options, Range};
use std::marker::Model;

/// What was set, and the default of each option for which nothing was. Contracts see the options.
#[derive(Debug, Drop)]
pub struct Settings {
    options: Options,
}

impl Model for Settings {
    ghost use Rattle.keel_base.specs.declared.options.Options.{Options};
    ghost use Rattle.keel_base.specs.Options.{AreInRange};

    ghost Value = { Options };

    ghost view = { λ s. s.options };

    ghost invariant = { λ s. AreInRange s.options };
}

impl Settings {
    /// Nothing was set yet: the standard options, each of which is the default of its name.
    pub fn new() -> Self
        ensures standard { result ≡ standard }
        ensures defaults { AreDefaults result }
    {
        Settings {
            options: Options::standard(),
        }
    }

    /// Sets an option. A value out of its range changes nothing, and the range is handed out.
    pub fn set(&mut self, name: OptionName, value: u64) -> Result<(), Range>
        ensures ok { OnOk result (SetsOne name value self.old self.new) }
        ensures err { OnErr result (self.new ≡ self.old) }
        ensures range { IfErr result (λ range. range ≡ range_of name) }
        ensures cause { IsOk result ↔ IsWithin name value }
    {
        let range = name.range();
        if !range.contains(value) {
            return Err(range);
        }
        self.options.set(name, value);
        Ok(())
    }

    /// The values, each within its range.
    pub fn options(&self) -> &Options
        ensures same { result.now ≡ self.now }
        ensures in_range { AreInRange self.now }
    {
        &self.options
    }
}

#[cfg(test)]
mod tests;
