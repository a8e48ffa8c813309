//! The settings that are one number, as a list by setting.

ghost use Rattle.std.specs.Prelude.{◌≡◌, ◌<◌, length, slice_set, OnOk, OnErr};
ghost use Rattle.backup_rules.specs.Settings.{index_of};
ghost use Rattle.backup_rules.specs.Values.{number_at, named_at};
ghost use Rattle.backup_rules.specs.Ranges.{IsOf, AreNumbers, AreNamed};
ghost use Rattle.backup_rules.specs.Changes.{default_numbers, none_named, with_named, changed_number, changed_numbers};

use crate::settings::{SETTING_COUNT, SETTINGS, Setting};
use std::marker::Model;

/// A number for each setting, in its range.
#[derive(Clone, Copy, Debug)]
pub struct Numbers {
    values: [u32; SETTING_COUNT],
}

impl Model for Numbers {
    ghost use Rattle.std.specs.Prelude.{List, ℕ};
    ghost use Rattle.backup_rules.specs.Ranges.{AreNumbers};

    ghost Value = { List ℕ };

    ghost view = { λ n. n.values };

    ghost invariant = { λ n. AreNumbers n.values };

    ghost inverse = { λ numbers. record { values = numbers } };
}

/// A new number for some settings, each in its range.
#[derive(Clone, Copy, Debug)]
pub struct Named {
    values: [Option<u32>; SETTING_COUNT],
}

impl Model for Named {
    ghost use Rattle.std.specs.Prelude.{List, ℕ, Option};
    ghost use Rattle.backup_rules.specs.Ranges.{AreNamed};

    ghost Value = { List (Option ℕ) };

    ghost view = { λ n. n.values };

    ghost invariant = { λ n. AreNamed n.values };

    ghost inverse = { λ named. record { values = named } };
}

impl Numbers {
    /// The numbers that hold if nothing is said.
    pub fn defaults() -> Numbers
        ensures { result ≡ default_numbers }
    {
        Numbers {
            values: SETTINGS.map(|setting| setting.default_number()),
        }
    }

    pub fn get(&self, setting: Setting) -> u32
        ensures value { result ≡ number_at self.now setting }
        ensures in_range { AreNumbers self.now }
    {
        self.values[setting.index()]
    }

    /// Gives a setting a number in its range.
    pub fn put(&mut self, setting: Setting, value: u32)
        requires { IsOf setting value }
        ensures value { self.new ≡ slice_set self.old (index_of setting) value }
        ensures within { index_of setting < length self.old }
        ensures in_range { AreNumbers self.new }
    {
        self.values[setting.index()] = value;
    }

    /// The number of a setting after a change.
    #[tactic(auto, unfolding(crate::specs::Changes::changed_number))]
    fn changed_number(&self, named: &Named, setting: Setting) -> u32
        ensures value { result ≡ changed_number named.now self.now setting }
        ensures in_range { IsOf setting result }
    {
        named.get(setting).unwrap_or(self.get(setting))
    }

    /// The numbers after a change.
    #[tactic(auto, using(crate::proofs::NumberLaws::changed_all))]
    pub fn changed(&self, named: &Named) -> Numbers
        ensures { result ≡ changed_numbers named.now self.now }
    {
        let mut numbers = *self;
        for index in 0..SETTING_COUNT {
            let setting = Setting::at(index);
            numbers.put(setting, self.changed_number(named, setting));
        }
        let _ = &numbers.values;
        numbers
    }
}

impl Named {
    /// No number for any setting.
    pub fn none() -> Named
        ensures { result ≡ none_named }
    {
        Named {
            values: [None; SETTING_COUNT],
        }
    }

    pub fn get(&self, setting: Setting) -> Option<u32>
        ensures value { result ≡ named_at self.now setting }
        ensures in_range { AreNamed self.now }
    {
        self.values[setting.index()]
    }

    /// Names a number in its range.
    pub fn put(&mut self, setting: Setting, value: u32)
        requires { IsOf setting value }
        ensures { self.new ≡ with_named self.old setting value }
    {
        self.values[setting.index()] = Some(value);
    }
}
