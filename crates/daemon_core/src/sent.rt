//! What is sent.

ghost use Rattle.std.specs.Prelude.{◌≡◌, Some};
ghost use Rattle.book.specs.Given.{view_of_record_reply, record_of};
ghost use Rattle.daemon_core.specs.Sending.{ToClient, ToLocal};
ghost use Rattle.daemon_core.specs.Addressed.{view_of_addressee};
ghost use Rattle.daemon_core.specs.Outputs.{bytes_sent};
ghost use Rattle.local_ops.specs.Answers.{view_of_local_answer};
ghost use Rattle.local_ops.specs.Texts.{reply_text};
ghost use Rattle.byte_io.specs.Written.{Wrote};

use crate::send_buffer::SendBuffer;
use book::{LocalAnswer, RecordReply};
use byte_io::WriteFault;
use record_mark::{Spelled, write_spelled};
use std::io::Write;
use std::marker::Model;
use xdr_core::Frame;

/// Whom something is sent to.
#[derive(Clone, Copy)]
pub enum Addressee<'a> {
    /// The connection of this number, whose record is answered.
    Client(u64),
    /// The host of this name, which the server calls.
    Host(&'a [u8]),
    /// The connection of this number of a local program.
    Local(u64),
}

// A reply or an answer is a value until it is written; a call was written when it was sent.
#[derive(Drop)]
enum Content {
    Reply { to: u64, reply: RecordReply },
    Line { to: u64, answer: LocalAnswer },
    Call(Box<SendBuffer>),
}

// A reply's record.
#[derive(Clone, Copy)]
struct Spoken<'a> {
    reply: &'a RecordReply,
}

impl Spelled for Spoken<'_> {
    ghost use Rattle.book.specs.Given.{view_of_record_reply, record_of};

    ghost spelling = { λ s. record_of (view_of_record_reply s.reply.now) };

    fn put(&self, f: &mut Frame) {
        // An empty frame has room for each reply.
        let _ = self.reply.put(f);
    }
}

/// A reply to a connection, the answer to a local program's line, or one of the server's own calls to whom it is for.
pub struct Sent {
    content: Content,
}

// It is written out, so that no crate above proves again how each kind of content is dropped.
impl Drop for Sent {
    fn drop(self) {
        let Sent { content: _ } = self;
    }
}

impl Model for Sent {
    ghost use Rattle.daemon_core.specs.Sending.{Sending};
    ghost use Rattle.daemon_core.specs.Addressed.{view_of_content};

    ghost Value = { Sending };

    ghost view = { λ s. view_of_content s.content };
}

impl Sent {
    // To this connection.
    pub(crate) fn reply(to: u64, reply: RecordReply) -> Sent
        ensures { result ≡ record { to = ToClient to; bytes = record_of (view_of_record_reply reply) } }
    {
        Sent {
            content: Content::Reply { to, reply },
        }
    }

    // The answer to a line, to this local connection.
    pub(crate) fn line(to: u64, answer: LocalAnswer) -> Sent
        ensures { result ≡ record { to = ToLocal to; bytes = reply_text (view_of_local_answer answer) } }
    {
        Sent {
            content: Content::Line { to, answer },
        }
    }

    // A call, as it was written.
    pub(crate) fn call(send_buffer: Box<SendBuffer>) -> Sent
        ensures { result ≡ send_buffer.value }
    {
        Sent {
            content: Content::Call(send_buffer),
        }
    }

    /// Whom it is for.
    pub fn to(&self) -> Addressee<'_>
        ensures { view_of_addressee result ≡ self.now.to }
    {
        match &self.content {
            Content::Reply { to, .. } => Addressee::Client(*to),
            Content::Line { to, .. } => Addressee::Local(*to),
            Content::Call(send_buffer) => send_buffer.to(),
        }
    }

    /// Writes what is sent: a record as one fragment (RFC 5531, section 11), a line as it is. Where a write fails, a front of
    /// it was written. It takes no memory. The room is lent: what it held is gone, and what it holds afterwards means nothing.
    pub fn write<W: Write>(&self, room: &mut Frame, writer: &mut W) -> Result<(), WriteFault>
        ensures { Wrote (W.contents writer.old) (W.contents writer.new) result (bytes_sent (Some self.now)) }
    {
        match &self.content {
            Content::Line { answer, .. } => answer.write(writer),
            Content::Call(send_buffer) => send_buffer.write(writer),
            Content::Reply { reply, .. } => write_spelled(&Spoken { reply }, room, writer),
        }
    }
}
