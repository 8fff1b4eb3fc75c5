//! Credentials and verifiers (RFC 5531, section 8.2 and appendix A).

ghost use Rattle.std.specs.Prelude.{◌≡◌, ◌↔◌, [], IsTrue};
ghost use Rattle.rpc_msg.specs.Grammar.{view_of_auth};
ghost use Rattle.rpc_msg.specs.Verdict.{IsAccepted, BeginsWithSys};

use xdr_core::{
    Cursor, Frame, FrameFull, Opaque, Wire, Words, XdrError, get_record, put_record, read,
};

/// The flavor of a credential or a verifier without a body.
const AUTH_NONE: u32 = 0;

/// The flavor of a credential that names a machine and its user.
const AUTH_SYS: u32 = 1;

/// A flavor, and a body of at most 400 bytes whose meaning the flavor gives.
#[derive(Clone, Copy)]
pub struct OpaqueAuth<'r> {
    pub flavor: u32,
    pub body: Opaque<'r, 400>,
}

#[tactic(auto, unfolding(crate::specs::Grammar::opaque_auth))]
impl<'r> Wire<'r> for OpaqueAuth<'r> {
    ghost use Rattle.rpc_msg.specs.Grammar.{Auth, opaque_auth};

    ghost Value = { Auth };

    ghost view = { view_of_auth };

    ghost codec = { opaque_auth };

    fn get(c: &mut Cursor<'r>) -> Result<OpaqueAuth<'r>, XdrError> {
        get_record!(c, OpaqueAuth, flavor, body)
    }

    fn put(&self, f: &mut Frame) -> Result<(), FrameFull> {
        put_record!(self, f, flavor, body)
    }
}

/// The body of an AUTH_SYS credential (RFC 5531, appendix A).
#[derive(Clone, Copy)]
pub struct AuthSys<'r> {
    pub stamp: u32,
    pub machinename: Opaque<'r, 255>,
    pub uid: u32,
    pub gid: u32,
    pub gids: Words<'r, 16>,
}

#[tactic(auto, unfolding(crate::specs::Grammar::auth_sys))]
impl<'r> Wire<'r> for AuthSys<'r> {
    ghost use Rattle.rpc_msg.specs.Grammar.{SysBody, view_of_sys, auth_sys};

    ghost Value = { SysBody };

    ghost view = { view_of_sys };

    ghost codec = { auth_sys };

    fn get(c: &mut Cursor<'r>) -> Result<AuthSys<'r>, XdrError> {
        get_record!(c, AuthSys, stamp, machinename, uid, gid, gids)
    }

    fn put(&self, f: &mut Frame) -> Result<(), FrameFull> {
        put_record!(self, f, stamp, machinename, uid, gid, gids)
    }
}

/// Whether the bytes begin with a whole AUTH_SYS body; what follows it is not looked at.
fn begins_with_sys(body: &[u8]) -> bool
    ensures { IsTrue result ↔ BeginsWithSys body.now }
{
    let mut c = Cursor::new(body);
    read::<AuthSys>(&mut c).is_ok()
}

impl<'r> OpaqueAuth<'r> {
    /// AUTH_NONE, with no body.
    pub fn none() -> OpaqueAuth<'static>
        ensures flavor { result.flavor ≡ 0 }
        ensures body { result.body.bytes.now ≡ [] }
    {
        OpaqueAuth {
            flavor: AUTH_NONE,
            body: Opaque { bytes: &[] },
        }
    }

    /// Whether a call with this credential is served: AUTH_NONE, whose body is not looked at, or
    /// AUTH_SYS whose body begins with a whole value.
    pub fn is_accepted(&self) -> bool
        ensures { IsTrue result ↔ IsAccepted (view_of_auth self.now) }
    {
        match self.flavor {
            AUTH_NONE => true,
            AUTH_SYS => begins_with_sys(self.body.bytes),
            _ => false,
        }
    }
}
