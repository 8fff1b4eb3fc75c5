//! A call of the server's own, as it is sent.

ghost use Rattle.std.specs.Prelude.{◌≡◌, [], Some};
ghost use Rattle.call_codec.specs.Dests.{view_of_dest};
ghost use Rattle.daemon_core.specs.Addressed.{view_of_addressee};
ghost use Rattle.daemon_core.specs.Outputs.{bytes_sent};
ghost use Rattle.daemon_core.specs.Sending.{ToLocal, addressee};
ghost use Rattle.byte_io.specs.Written.{Wrote};

use crate::sent::Addressee;
use book::Dest;
use byte_io::{WriteFault, write_whole};
use record_mark::write_record;
use std::io::Write;
use std::marker::Model;
use xdr_core::Frame;

/// The place of a call of the server's own: whom the newest one is for, and its record. It has some 5 KiB, and is lent to
/// each sending, so that no other event moves it.
#[derive(Drop)]
pub struct SendBuffer {
    to: Dest,
    frame: Frame,
}

impl Model for SendBuffer {
    ghost use Rattle.call_codec.specs.Dests.{view_of_dest};
    ghost use Rattle.daemon_core.specs.Sending.{Sending, addressee};

    ghost Value = { Sending };

    ghost view = { λ p. record { to = addressee (view_of_dest p.to); bytes = p.frame } };
}

impl SendBuffer {
    /// No bytes, for the local connection 0, until a call is sent.
    pub fn new() -> SendBuffer
        ensures { result ≡ record { to = ToLocal 0; bytes = [] } }
    {
        SendBuffer {
            to: Dest::Connection(0),
            frame: Frame::new(),
        }
    }

    pub(crate) fn fill(&mut self, to: Dest, frame: Frame)
        ensures { self.new ≡ record { to = addressee (view_of_dest to); bytes = frame } }
    {
        self.to = to;
        self.frame = frame;
    }

    /// Whom the call is for.
    pub fn to(&self) -> Addressee<'_>
        ensures { view_of_addressee result ≡ self.now.to }
    {
        match &self.to {
            Dest::Host(name) => Addressee::Host(name.as_slice()),
            Dest::Connection(number) => Addressee::Local(*number),
        }
    }

    /// Writes the call: to a host as a record of one fragment (RFC 5531, section 11), to a local program as it is. Where a
    /// write fails, a front of it was written. It takes no memory.
    pub fn write<W: Write>(&self, writer: &mut W) -> Result<(), WriteFault>
        ensures { Wrote (W.contents writer.old) (W.contents writer.new) result (bytes_sent (Some self.now)) }
    {
        match &self.to {
            Dest::Host(_) => write_record(writer, &self.frame),
            Dest::Connection(_) => write_whole(writer, self.frame.as_slice()),
        }
    }
}
