//! Tests of rules, schedules and settings: keeping, the table of settings, the fill rule, time zones, the settings' file, the
//! words of a command line, and the sealed files of heads and hosts in each layout, byte by byte. They use only what the crates
//! show, and stand apart from them, so that each crate is proved once.
#![tactic(auto)]

#[cfg(test)]
mod command_line_tests;
#[cfg(test)]
mod indices;
#[cfg(test)]
mod keep_rules_tests;
#[cfg(test)]
mod rule_texts_tests;
#[cfg(test)]
mod rules;
#[cfg(test)]
mod settings_file_tests;
#[cfg(test)]
mod wake_schedule_tests;
