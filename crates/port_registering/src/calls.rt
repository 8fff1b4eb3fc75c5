//! The calls that register a server, in their order.
use port_mapper::{Mapping, Procedure, TCP, UDP, put_call};
use std::time::Duration;
use xdr_core::Frame;

/// What is registered, and where.
#[derive(Clone, Copy, Debug, PartialEq, Eq)]
pub struct Registration {
    /// The port at which the server takes calls.
    pub port: u16,
    /// The port at which it takes calls to the status monitor by datagram. None: it takes none.
    pub notify_port: Option<u16>,
    /// The port of the port mapper on loopback.
    pub mapper: u16,
    /// How long the port mapper is left alone where it could not be had.
    pub pause: Duration,
}

/// The programs and versions that the server speaks.
const SERVICES: [(u32, u32); 4] = [(100_021, 1), (100_021, 3), (100_021, 4), (100_024, 1)];

/// How many calls unset what stands there for these, over each protocol, and how many there are with those that set them over TCP.
pub(crate) const UNSETS: usize = 4;

const SETS: usize = 8;

// The call of this place that unsets, or sets over TCP. None behind the last.
fn tcp_call(step: usize, port: u16) -> Option<(Procedure, Mapping)> {
    if step >= SETS {
        return None;
    }
    let (prog, vers) = SERVICES[step % UNSETS];
    let (procedure, port) = if step < UNSETS {
        (Procedure::Unset, 0)
    } else {
        (Procedure::Set, u32::from(port))
    };
    let prot = TCP;
    Some((
        procedure,
        Mapping {
            prog,
            vers,
            prot,
            port,
        },
    ))
}

// The call that sets the status monitor over UDP.
fn udp_call(port: u16) -> (Procedure, Mapping) {
    let (prog, vers) = SERVICES[UNSETS - 1];
    let mapping = Mapping {
        prog,
        vers,
        prot: UDP,
        port: u32::from(port),
    };
    (Procedure::Set, mapping)
}

impl Registration {
    /// How many calls register all of it.
    pub(crate) fn calls(&self) -> usize {
        match self.notify_port {
            Some(_) => SETS + 1,
            None => SETS,
        }
    }

    // What the call of this place does. None behind the last.
    fn step(&self, step: usize) -> Option<(Procedure, Mapping)> {
        match self.notify_port {
            Some(port) if step == SETS => Some(udp_call(port)),
            _ => tcp_call(step, self.port),
        }
    }

    /// The call of this place, under this xid. None behind the last.
    pub(crate) fn call_at(&self, step: usize, xid: u32) -> Option<Frame> {
        let (procedure, mapping) = self.step(step)?;
        let mut frame = Frame::new();
        match put_call(&mut frame, xid, procedure, &mapping) {
            Ok(()) => Some(frame),
            Err(_) => None,
        }
    }
}

/// Whether the answer to the call of this place lets the next one follow: what isn't set is not unset.
pub(crate) fn goes_on(step: usize, is_done: bool) -> bool {
    step < UNSETS || is_done
}
