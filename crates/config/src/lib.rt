//! What the program is asked to do: its command line.
#![tactic(auto)]

mod asked;
mod command;
mod fault;
mod settings;
mod texts;
mod values;

pub use asked::config;
pub use fault::ConfigFault;
pub use settings::{Config, Ports, ServeConfig, StreamConfig, Times};
pub use texts::{FilePath, OwnName};
pub use values::{Connections, Port, Seconds, Workers};
