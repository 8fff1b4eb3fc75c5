//! What a record asks: its call as a value, or why it is not given to its procedure (RFC 5531, section 9).
ghost use Rattle.call_codec.specs.CallValues.{view_of_reading};
ghost use Rattle.std.specs.Prelude.{◌≡◌, Some};
ghost use Rattle.nlm4_types.specs.Version.{view_of_version};
ghost use Rattle.call_codec.specs.Readings.{IsReading, IsAsked, IsNlmAsked, IsNsmAsked, mismatch, view_of_header_error};

mod answer;
mod call;
mod law;

pub use answer::AnswerReading;
pub use call::{Call, Refusal};
pub use law::{one_answer_reading, one_reading};
use nlm4_types::{NlmCall, PROGRAM as NLM_PROGRAM, Version};
use nsm_types::{NsmCall, PROGRAM as NSM_PROGRAM, VERSION as NSM_VERSION};
use rpc_msg::{Header, HeaderError, ProcedureCall as RpcCall};
use xdr_core::{CallError, Cursor};

/// The lowest and the highest version of the lock manager that is served; 2 is not.
const LOWEST_NLM_VERSION: u32 = 1;

const HIGHEST_NLM_VERSION: u32 = 4;

/// What a record says.
#[derive(Clone, Copy)]
pub enum Reading<'r> {
    /// It is no call, or its header can't be read: it gets no reply.
    Ignored,
    /// It is a call that is not given to its procedure.
    Turned { xid: u32, refusal: Refusal },
    /// It is a call, and bytes behind its arguments don't count.
    Asks { xid: u32, call: Call<'r> },
}

impl<'r> Reading<'r> {
    /// Reads a record. It takes no memory.
    pub fn read(bytes: &'r [u8]) -> Reading<'r>
        ensures { IsReading bytes.now (view_of_reading result) }
    {
        match Header::read(bytes) {
            Ok((header, arguments)) => asked(header.xid, header.call(arguments)),
            Err(error) => refused(error),
        }
    }
}

fn refused<'r>(error: HeaderError) -> Reading<'r>
    ensures { view_of_reading result ≡ view_of_header_error error }
{
    match error {
        HeaderError::NotACall | HeaderError::BadHeader => Reading::Ignored,
        HeaderError::RpcVersion { xid } => Reading::Turned {
            xid,
            refusal: Refusal::RpcMismatch,
        },
        HeaderError::BadCred { xid } => Reading::Turned {
            xid,
            refusal: Refusal::BadCredential,
        },
    }
}

// The program, the version, the procedure and the arguments, in this order.
fn asked<'r>(xid: u32, call: RpcCall<'r>) -> Reading<'r>
    ensures { IsAsked (record { xid = xid; prog = call.entry.prog; vers = call.entry.vers; proc = call.entry.proc }) call.entry.arguments (view_of_reading result) }
{
    let mut arguments = call.arguments;
    match call.prog {
        NLM_PROGRAM => match Version::from_number(call.vers) {
            Some(version) => nlm(xid, version, call.proc, &mut arguments),
            None => mismatch(xid, LOWEST_NLM_VERSION, HIGHEST_NLM_VERSION),
        },
        NSM_PROGRAM if call.vers == NSM_VERSION => nsm(xid, call.proc, &mut arguments),
        NSM_PROGRAM => mismatch(xid, NSM_VERSION, NSM_VERSION),
        _ => Reading::Turned {
            xid,
            refusal: Refusal::ProgUnavail,
        },
    }
}

fn mismatch<'r>(xid: u32, low: u32, high: u32) -> Reading<'r>
    ensures { view_of_reading result ≡ mismatch xid low high }
{
    Reading::Turned {
        xid,
        refusal: Refusal::ProgMismatch { low, high },
    }
}

fn nlm<'r>(xid: u32, version: Version, procedure: u32, arguments: &mut Cursor<'r>) -> Reading<'r>
    ensures { IsNlmAsked (Some (view_of_version version)) xid procedure arguments.old (view_of_reading result) }
{
    match NlmCall::read(version, procedure, arguments) {
        Ok(call) => Reading::Asks {
            xid,
            call: Call::Nlm(version, call),
        },
        Err(CallError::NoSuchProc) => Reading::Turned {
            xid,
            refusal: Refusal::ProcUnavail,
        },
        Err(_) => Reading::Turned {
            xid,
            refusal: Refusal::GarbageArgs,
        },
    }
}

fn nsm<'r>(xid: u32, procedure: u32, arguments: &mut Cursor<'r>) -> Reading<'r>
    ensures { IsNsmAsked xid procedure arguments.old (view_of_reading result) }
{
    match NsmCall::read(procedure, arguments) {
        Ok(call) => Reading::Asks {
            xid,
            call: Call::Nsm(call),
        },
        Err(CallError::NoSuchProc) => Reading::Turned {
            xid,
            refusal: Refusal::ProcUnavail,
        },
        Err(_) => Reading::Turned {
            xid,
            refusal: Refusal::GarbageArgs,
        },
    }
}
