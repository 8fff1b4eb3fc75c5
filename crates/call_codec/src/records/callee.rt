//! What is called, and with what.
ghost use Rattle.std.specs.Prelude.{◌≡◌, ◌+◌, ◌≤◌, ◌++◌, ◌↔◌, length, IsOk, OnOk, OnErr};
ghost use Rattle.nlm4_types.specs.Version.{view_of_version};
ghost use Rattle.callbacks.specs.Meanings.{view_of_told_my_id};
ghost use Rattle.call_codec.specs.Records.{lock_manager, record_to, status_monitor, watcher};
ghost use Rattle.call_codec.specs.Parts.{arguments_bytes};

use callbacks::OwnedMyId;
use nlm4_types::{NlmMessage, PROGRAM as NLM_PROGRAM, Version};
use nsm_types::{NsmMessage, PROGRAM as NSM_PROGRAM, VERSION as NSM_VERSION};
use rpc_msg::put_call;
use xdr_core::{Frame, FrameFull};

/// The procedure that tells a status monitor of a restart (XNFS).
const SM_NOTIFY: u32 = 6;

/// A procedure of a program's version (RFC 5531, section 8.1).
#[derive(Clone, Copy)]
pub(crate) struct Callee {
    program: u32,
    version: u32,
    procedure: u32,
}

impl Callee {
    /// A procedure of a client's lock manager.
    pub(crate) fn lock_manager(version: Version, procedure: u32) -> Callee
        ensures { result ≡ lock_manager (view_of_version version) procedure }
    {
        Callee {
            program: NLM_PROGRAM,
            version: version.number(),
            procedure,
        }
    }

    /// SM_NOTIFY of a client's status monitor.
    pub(crate) fn status_monitor() -> Callee
        ensures { result ≡ status_monitor }
    {
        Callee {
            program: NSM_PROGRAM,
            version: NSM_VERSION,
            procedure: SM_NOTIFY,
        }
    }

    /// What a watcher named, each number as the word of its two's complement.
    pub(crate) fn watcher(named: &OwnedMyId) -> Callee
        ensures { result ≡ watcher (view_of_told_my_id named.now) }
    {
        Callee {
            program: named.prog.cast_unsigned(),
            version: named.vers.cast_unsigned(),
            procedure: named.proc.cast_unsigned(),
        }
    }
}

/// The arguments of a call.
#[derive(Clone, Copy)]
pub(crate) enum Arguments<'r> {
    Nlm(Version, NlmMessage<'r>),
    Nsm(NsmMessage<'r>),
}

impl<'r> Arguments<'r> {
    fn put(&self, f: &mut Frame) -> Result<(), FrameFull>
        ensures fits { length f.old ≤ 64 → IsOk result }
        ensures room { IsOk result ↔ (length f.old + length (arguments_bytes self.now) ≤ 4096) }
        ensures ok { OnOk result (f.new ≡ f.old ++ arguments_bytes self.now) }
        ensures err { OnErr result (f.new ≡ f.old) }
    {
        match self {
            Arguments::Nlm(version, message) => message.put_in(*version, f),
            Arguments::Nsm(message) => message.put(f),
        }
    }

    /// Appends the record of a call with these arguments, whole or not at all.
    pub(crate) fn put_to(&self, number: u64, to: Callee, f: &mut Frame) -> Result<(), FrameFull>
        ensures fits { length f.old ≤ 24 → IsOk result }
        ensures room { IsOk result ↔ (length f.old + length (record_to number to (arguments_bytes self.now)) ≤ 4096) }
        ensures ok { OnOk result (f.new ≡ f.old ++ record_to number to (arguments_bytes self.now)) }
        ensures err { OnErr result (f.new ≡ f.old) }
    {
        let start = f.len();
        let xid = (number % 4_294_967_296) as u32;
        put_call(f, xid, to.program, to.version, to.procedure)?;
        if self.put(f).is_err() {
            f.truncate(start);
            return Err(FrameFull);
        }
        Ok(())
    }
}
