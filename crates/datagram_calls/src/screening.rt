//! Which datagrams come to the book.
ghost use Rattle.datagram_calls.specs.Screens.{IsScreened};

use nsm_types::PROGRAM;
use rpc_msg::{Header, HeaderError};

/// What is done with a datagram.
#[derive(Clone, Copy, Debug, PartialEq, Eq)]
pub enum Screened {
    /// It is no call: nothing is done, and nothing goes back.
    NoCall,
    /// It is a call of another program than the status monitor, which alone is served by datagram: PROG_UNAVAIL goes back.
    Elsewhere {
        /// The call's xid.
        xid: u32,
    },
    /// It goes to the book, which answers it as it does a record of a connection.
    ForBook,
}

/// What is done with a datagram of these bytes, by its header (RFC 5531, section 9).
pub fn screen(bytes: &[u8]) -> Screened
    ensures { IsScreened bytes.now result }
{
    match Header::read(bytes) {
        Ok((header, _)) if header.prog == PROGRAM => Screened::ForBook,
        Ok((header, _)) => Screened::Elsewhere { xid: header.xid },
        Err(HeaderError::NotACall) => Screened::NoCall,
        Err(HeaderError::BadHeader) => Screened::NoCall,
        Err(HeaderError::RpcVersion { xid: _ }) => Screened::ForBook,
        Err(HeaderError::BadCred { xid: _ }) => Screened::ForBook,
    }
}
