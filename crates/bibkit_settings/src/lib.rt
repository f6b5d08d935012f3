//! The options of `bibkit`: those of the command line, and those of bibkit.toml.
//!
//! `commands` is the table of commands and options that clap parses. `configuration` reads bibkit.toml. `settings` contains the
//! settings of `lint`, and `style_settings` those of `fmt`. In both, a setting of the command line overrides one of bibkit.toml.
#![tactic(auto)]

pub mod commands;
pub mod configuration;
pub mod settings;
pub mod style_settings;
