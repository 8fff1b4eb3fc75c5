//! Lines for local programs that nobody asked for just then.
use callback_sender::Locals;
use connections::ConnectionTable;
use std::sync::{Mutex, Wait};

/// Finds local programs by their connections' numbers.
#[derive(Drop)]
pub(crate) struct LocalLines<'a, R> {
    rt: &'a R,
    locals: &'a Mutex<ConnectionTable<()>>,
}

impl<'a, R> LocalLines<'a, R> {
    pub(crate) fn new(rt: &'a R, locals: &'a Mutex<ConnectionTable<()>>) -> LocalLines<'a, R> {
        LocalLines { rt, locals }
    }
}

impl<'a, R: Wait> Locals for LocalLines<'a, R> {
    fn tell(&self, connection: u64, line: &[u8]) -> bool {
        // The connection table's lock is let go before the line is written.
        let found = self.locals.lock(self.rt).find(connection);
        match found {
            Some(found) => found.send(self.rt, line).is_ok(),
            None => false,
        }
    }
}
