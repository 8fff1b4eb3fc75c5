//! What is noted of connections that were closed before their peers ended them.
use log::{Log, error, info, warn};
use page_loop::PagesEnding;
use std::net::SocketAddr;

/// Notes how reading from a caller ended.
pub(crate) fn caller<R: Log>(rt: &R, from: SocketAddr, ending: workers::Ending) {
    match ending {
        workers::Ending::Over | workers::Ending::Closed => {}
        workers::Ending::Failed => info!(rt; "{from} was idle, or its connection failed: closed"),
        workers::Ending::TooLong => warn!(rt; "{from} sent too long a record: closed"),
        workers::Ending::Starved => error!(rt; "no memory for what {from} sent: closed"),
    }
}

/// Notes how the connection of an operator ended.
pub(crate) fn operator<R: Log>(rt: &R, from: SocketAddr, ending: PagesEnding) {
    match ending {
        PagesEnding::Over => {}
        PagesEnding::Refused => info!(rt; "operator {from} sent no request for a page: closed"),
        PagesEnding::ReadFault =>
            info!(rt; "operator {from} was idle, or its connection failed: closed"),
        PagesEnding::WriteFault => info!(rt; "operator {from} takes no bytes: closed"),
        PagesEnding::Starved => error!(rt; "no memory for the connection of {from}: closed"),
    }
}

/// Notes how the talk with a local program ended.
pub(crate) fn local<R: Log>(rt: &R, from: SocketAddr, ending: line_loop::LinesEnding) {
    match ending {
        line_loop::LinesEnding::Over | line_loop::LinesEnding::Stopped => {}
        line_loop::LinesEnding::ReadFault => info!(rt; "local program {from} failed: closed"),
        line_loop::LinesEnding::WriteFault =>
            warn!(rt; "local program {from} takes no bytes: closed"),
        line_loop::LinesEnding::Starved =>
            error!(rt; "no memory for the connection of {from}: closed"),
    }
}
