//! The version of the program, as its command line and its pages show it.
#![tactic(auto)]

/// The version, by the rules of Semantic Versioning 2.0.0. It has no quote, backslash or line feed.
pub const VERSION: &str = "1.0.0";
