//! The version of the program.

/// The version of the program.
pub const VERSION: &str = "0.1.0";
