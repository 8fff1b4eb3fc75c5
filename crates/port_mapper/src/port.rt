//! A port, as the result of a call (RFC 1833, section 3.2).

ghost use Rattle.std.specs.Prelude.{◌≡◌, ℕ, ◌≤◌};

use xdr_core::{Cursor, Frame, FrameFull, Wire, XdrError};

/// A word of 1 to 65,535.
#[derive(Clone, Copy, Debug, PartialEq, Eq)]
pub struct Port {
    pub number: u16,
    pub ghost least: { 1 ≤ number },
}

#[tactic(auto, unfolding(crate::specs::Mappings::port))]
impl<'r> Wire<'r> for Port {
    ghost use Rattle.port_mapper.specs.Mappings.{port};

    ghost Value = { ℕ };

    ghost view = { λ v. v.number };

    ghost codec = { port };

    fn get(c: &mut Cursor<'r>) -> Result<Port, XdrError> {
        let mut at = c.fork();
        let number = u32::get(&mut at)?;
        if number < 1 || number > 65_535 {
            return Err(XdrError::BadEnum);
        }
        *c = at;
        Ok(Port {
            number: number as u16,
        })
    }

    fn put(&self, f: &mut Frame) -> Result<(), FrameFull> {
        u32::from(self.number).put(f)
    }
}
