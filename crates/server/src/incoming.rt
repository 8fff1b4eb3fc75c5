//! What comes in from a caller.
use crate::signals::StopSignals;
use crate::traffic::Traffic;
use line_loop::Signals;
use std::io::{self, Read};
use std::net::TcpStream;

/// Whether there is no peer any more: it has reset the connection.
pub(crate) fn is_reset(stream: &TcpStream) -> bool {
    stream.peer_addr().is_err()
}

/// A caller's bytes, until the server stops or the caller resets the connection. The socket would still give bytes then: of a peer that
/// goes on sending, though it is shut for reading; of a peer that has reset it, what came before, which a reset drops (RFC 9293,
/// section 3.10.7.4).
#[derive(Drop)]
pub(crate) struct Incoming<'a> {
    stream: &'a TcpStream,
    stop_signals: &'a StopSignals,
    // Where it is counted, under the connection's number.
    traffic: Option<&'a Traffic>,
    number: u64,
}

impl<'a> Incoming<'a> {
    pub(crate) fn new(
        stream: &'a TcpStream,
        stop_signals: &'a StopSignals,
        traffic: Option<&'a Traffic>,
        number: u64,
    ) -> Incoming<'a> {
        Incoming {
            stream,
            stop_signals,
            traffic,
            number,
        }
    }
}

impl<'a> Read for Incoming<'a> {
    fn read(&mut self, buf: &mut [u8]) -> io::Result<usize> {
        if self.stop_signals.is_stopping() || is_reset(self.stream) {
            return Ok(0);
        }
        let mut from = self.stream;
        match from.read(buf) {
            Ok(read) => {
                if let Some(traffic) = self.traffic {
                    traffic.add_received(self.number, read);
                }
                Ok(read)
            }
            Err(error) => Err(error),
        }
    }
}
