//! A mapping (RFC 1833, section 3.1).

use xdr_core::{Cursor, Frame, FrameFull, Wire, XdrError, get_record, put_record};

/// The number of TCP as a mapping's protocol.
pub const TCP: u32 = 6;

/// The number of UDP as a mapping's protocol.
pub const UDP: u32 = 17;

/// Which port takes the calls of a program in a version, over a protocol.
#[derive(Clone, Copy, Debug, PartialEq, Eq)]
pub struct Mapping {
    pub prog: u32,
    pub vers: u32,
    /// `TCP` or `UDP`.
    pub prot: u32,
    /// 1 to 65,535; 0 where the port mapper is asked for it.
    pub port: u32,
}

#[tactic(auto, unfolding(crate::specs::Mappings::mapping))]
impl<'r> Wire<'r> for Mapping {
    ghost use Rattle.port_mapper.specs.declared.mapping.Mapping.{Mapping};
    ghost use Rattle.port_mapper.specs.Mappings.{mapping};

    ghost Value = { Mapping };

    ghost view = { λ v. v };

    ghost codec = { mapping };

    fn get(c: &mut Cursor<'r>) -> Result<Mapping, XdrError> {
        get_record!(c, Mapping, prog, vers, prot, port)
    }

    fn put(&self, f: &mut Frame) -> Result<(), FrameFull> {
        put_record!(self, f, prog, vers, prot, port)
    }
}
