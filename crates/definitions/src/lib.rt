//! What the daemon promises, as definitions. See `specs/`.
#![tactic(auto)]

pub mod own_state;
pub mod quotas;
pub mod rules;
