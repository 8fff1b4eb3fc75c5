//! A setting that a table takes.
ghost use Rattle.std.specs.Prelude.{◌≤◌, ◌<◌, ◌^◌};

use crate::run::Setting;

/// A setting of at least one byte and of bytes from 0 to 2^63 - 1.
#[derive(Clone, Copy)]
pub struct Ranged {
    pub setting: Setting,
    pub ghost ordered: { setting.first ≤ setting.last },
    pub ghost inside: { setting.last < 2 ^ 63 },
}
