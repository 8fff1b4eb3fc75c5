//! Calls (RFC 5531, section 9).

ghost use Rattle.std.specs.Prelude.{◌≡◌, ◌+◌, ◌≤◌, ◌++◌, ◌↔◌, length, IsOk, OnOk, OnErr};
ghost use Rattle.rpc_msg.specs.Grammar.{written_call};

use crate::auth::OpaqueAuth;
use crate::{CALL, RPC_VERSION};
use xdr_core::{Cursor, Frame, FrameFull, Wire, XdrError, get_record, put_record};

/// The first three words of a call.
#[derive(Clone, Copy)]
pub struct CallStart {
    pub xid: u32,
    pub mtype: u32,
    pub rpcvers: u32,
}

#[tactic(auto, unfolding(crate::specs::Grammar::call_start))]
impl<'r> Wire<'r> for CallStart {
    ghost use Rattle.rpc_msg.specs.declared.call.CallStart.{CallStart};
    ghost use Rattle.rpc_msg.specs.Grammar.{call_start};

    ghost Value = { CallStart };

    ghost view = { λ v. v };

    ghost codec = { call_start };

    fn get(c: &mut Cursor<'r>) -> Result<CallStart, XdrError> {
        get_record!(c, CallStart, xid, mtype, rpcvers)
    }

    fn put(&self, f: &mut Frame) -> Result<(), FrameFull> {
        put_record!(self, f, xid, mtype, rpcvers)
    }
}

/// What follows them: the procedure that is called, and who calls it.
#[derive(Clone, Copy)]
pub struct CallBody<'r> {
    pub prog: u32,
    pub vers: u32,
    pub proc: u32,
    pub cred: OpaqueAuth<'r>,
    pub verf: OpaqueAuth<'r>,
}

#[tactic(auto, unfolding(crate::specs::Grammar::call_body))]
impl<'r> Wire<'r> for CallBody<'r> {
    ghost use Rattle.rpc_msg.specs.Grammar.{Body, view_of_body, call_body};

    ghost Value = { Body };

    ghost view = { view_of_body };

    ghost codec = { call_body };

    fn get(c: &mut Cursor<'r>) -> Result<CallBody<'r>, XdrError> {
        get_record!(c, CallBody, prog, vers, proc, cred, verf)
    }

    fn put(&self, f: &mut Frame) -> Result<(), FrameFull> {
        put_record!(self, f, prog, vers, proc, cred, verf)
    }
}

/// A procedure with its arguments, which are not read yet.
#[derive(Drop)]
pub struct ProcedureCall<'r> {
    pub prog: u32,
    pub vers: u32,
    pub proc: u32,
    pub arguments: Cursor<'r>,
}

/// Writes the header of a call, with AUTH_NONE as its credential and its verifier: 40 bytes. The
/// arguments are to follow. `FrameFull` exactly where they don't fit; the frame is unchanged then.
#[tactic(auto, using(crate::proofs::Fits::call_fits))]
pub fn put_call(f: &mut Frame, xid: u32, prog: u32, vers: u32, proc: u32) -> Result<(), FrameFull>
    ensures room { IsOk result ↔ (length f.old + 40 ≤ 4096) }
    ensures ok { OnOk result (f.new ≡ f.old ++ written_call xid prog vers proc) }
    ensures err { OnErr result (f.new ≡ f.old) }
    ensures size { length (written_call xid prog vers proc) ≡ 40 }
{
    let none = OpaqueAuth::none();
    let start = CallStart {
        xid,
        mtype: CALL,
        rpcvers: RPC_VERSION,
    };
    let body = CallBody {
        prog,
        vers,
        proc,
        cred: none,
        verf: none,
    };
    (start, body).put(f)
}
