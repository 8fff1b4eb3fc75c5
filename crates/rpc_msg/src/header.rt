//! The verdict on a record.

ghost use Rattle.std.specs.Prelude.{◌≡◌, IfOk, IfErr};
ghost use Rattle.rpc_msg.specs.Verdict.{Asks, IsRefusal};

use crate::call::{CallBody, CallStart, ProcedureCall};
use crate::{CALL, RPC_VERSION};
use thiserror::Error;
use xdr_core::{Cursor, read};

/// What a call's header says but for its credential and verifier.
#[derive(Clone, Copy, PartialEq, Eq)]
pub struct Header {
    pub xid: u32,
    pub prog: u32,
    pub vers: u32,
    pub proc: u32,
}

/// Why a record gives no call. The first that fits, in this order: `NotACall`, `RpcVersion`,
/// `BadHeader`, `BadCred`.
#[derive(Clone, Copy, Debug, PartialEq, Eq, Error)]
pub enum HeaderError {
    /// It has no three words, or its message type is not CALL. It is to be ignored.
    #[error("6 NotACall")]
    NotACall,
    /// The rest of the header is not spelled by its grammar. It is to be ignored.
    #[error("7 BadHeader")]
    BadHeader,
    /// Its RPC version is not 2: to be answered MSG_DENIED, RPC_MISMATCH.
    #[error("8 RpcVersion")]
    RpcVersion { xid: u32 },
    /// Its credential is not served: to be answered MSG_DENIED, AUTH_ERROR.
    #[error("9 BadCred")]
    BadCred { xid: u32 },
}

impl Header {
    /// Reads the header of a record, and stands at the arguments then. The verifier is read as it
    /// is spelled, and not looked into.
    pub fn read(bytes: &[u8]) -> Result<(Header, Cursor<'_>), HeaderError>
        ensures call { IfOk result (λ p. Asks bytes.now p.0 p.1) }
        ensures refused { IfErr result (λ e. IsRefusal bytes.now e) }
    {
        let mut c = Cursor::new(bytes);
        let Ok(start) = read::<CallStart>(&mut c) else {
            return Err(HeaderError::NotACall);
        };
        if start.mtype != CALL {
            return Err(HeaderError::NotACall);
        }
        let xid = start.xid;
        if start.rpcvers != RPC_VERSION {
            return Err(HeaderError::RpcVersion { xid });
        }
        let Ok(body) = read::<CallBody>(&mut c) else {
            return Err(HeaderError::BadHeader);
        };
        if !body.cred.is_accepted() {
            return Err(HeaderError::BadCred { xid });
        }
        let header = Header {
            xid,
            prog: body.prog,
            vers: body.vers,
            proc: body.proc,
        };
        Ok((header, c))
    }

    /// What it asks, with the arguments that stand behind it.
    pub fn call<'r>(&self, arguments: Cursor<'r>) -> ProcedureCall<'r>
        ensures { result ≡ record { prog = self.now.prog; vers = self.now.vers; proc = self.now.proc; arguments = arguments.entry } }
    {
        ProcedureCall {
            prog: self.prog,
            vers: self.vers,
            proc: self.proc,
            arguments,
        }
    }
}
