//! Whom a record is for.
ghost use Rattle.std.specs.Prelude.{◌≡◌};
ghost use Rattle.callbacks.specs.Meanings.{view_of_destination};
ghost use Rattle.call_codec.specs.Dests.{view_of_dest};

use callbacks::Destination;
use local_ops::HostName;

/// Whom a record is for. It takes no memory of its own.
#[derive(Drop)]
pub enum Dest {
    /// A host, by its name of at most 1,024 bytes.
    Host(HostName<1024>),
    /// A local connection, by its number.
    Connection(u64),
}

impl Dest {
    /// The same as a callback says.
    pub fn of(to: &Destination) -> Dest
        ensures { view_of_dest result ≡ view_of_destination to.now }
    {
        match to {
            Destination::Host(name) => Dest::Host(HostName::new(name.as_slice())),
            Destination::Connection(number) => Dest::Connection(*number),
        }
    }
}
