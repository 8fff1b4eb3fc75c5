//! The calls (RFC 1833, section 3.2).

ghost use Rattle.std.specs.Prelude.{◌≡◌, ◌+◌, ◌≤◌, ◌++◌, ◌↔◌, length, IsOk, OnOk, OnErr};
ghost use Rattle.port_mapper.specs.Calls.{number_of, written};

use crate::mapping::Mapping;
use rpc_msg::put_call as put_header;
use xdr_core::{Frame, FrameFull, Wire};

/// The program's number and its version.
const PROGRAM: u32 = 100_000;

const VERSION: u32 = 2;

/// How many bytes a call has.
pub const CALL_BYTES: usize = 56;

/// What the port mapper is asked to do with a mapping.
#[derive(Clone, Copy, Debug, PartialEq, Eq)]
pub enum Procedure {
    /// To take it in (PMAPPROC_SET). The result is a bool: false where another port is set for the program, version and protocol.
    Set,
    /// To drop what is set for the program and the version, over whatever protocol (PMAPPROC_UNSET). The result is a bool.
    Unset,
    /// To tell the port that is set for the program, version and protocol (PMAPPROC_GETPORT). The result is a word, 0 where none is.
    GetPort,
}

impl Procedure {
    fn number(self) -> u32
        ensures { result ≡ number_of self }
    {
        match self {
            Procedure::Set => 1,
            Procedure::Unset => 2,
            Procedure::GetPort => 3,
        }
    }
}

/// Writes a call with AUTH_NONE as its credential and its verifier. `FrameFull` exactly where it doesn't fit; the frame is unchanged
/// then.
#[tactic(auto, using(crate::proofs::Fits::written_fits, crate::proofs::Fits::mapping_fits))]
pub fn put_call(
    f: &mut Frame,
    xid: u32,
    procedure: Procedure,
    mapping: &Mapping,
) -> Result<(), FrameFull>
    ensures room { IsOk result ↔ (length f.old + 56 ≤ 4096) }
    ensures ok { OnOk result (f.new ≡ f.old ++ written xid procedure mapping.now) }
    ensures err { OnErr result (f.new ≡ f.old) }
    ensures size { length (written xid procedure mapping.now) ≡ 56 }
{
    let start = f.len();
    put_header(f, xid, PROGRAM, VERSION, procedure.number())?;
    if mapping.put(f).is_err() {
        f.truncate(start);
        return Err(FrameFull);
    }
    Ok(())
}
