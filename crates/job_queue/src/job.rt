//! A record that waits for a worker.
ghost use Rattle.std.specs.Prelude.{◌≡◌};
ghost use Rattle.kept_replies.specs.Pairs.{view_of_peer};

use bytes::Bytes;
use kept_replies::Peer;
use std::marker::Model;

/// A whole record of a connection, to be answered. Contracts see it as plain data, its `Task`.
#[derive(Debug, Drop)]
pub struct Job {
    connection: u64,
    peer: Peer,
    number: u64,
    asked: Bytes,
}

impl Model for Job {
    ghost use Rattle.kept_replies.specs.Pairs.{view_of_peer};
    ghost use Rattle.job_queue.specs.Task.{Task};

    ghost Value = { Task };

    ghost view = { λ j. record { connection = j.connection; peer = view_of_peer j.peer; number = j.number; asked = j.asked } };
}

impl Job {
    /// `number` says which record of its connection it is, from 0.
    pub fn new(connection: u64, peer: Peer, number: u64, asked: Bytes) -> Job
        ensures { result ≡ record { connection = connection; peer = view_of_peer peer; number = number; asked = asked } }
    {
        Job {
            connection,
            peer,
            number,
            asked,
        }
    }

    /// The connection that it came from and that its reply goes to.
    pub fn connection(&self) -> u64
        ensures { result ≡ self.now.connection }
    {
        self.connection
    }

    /// Which record of its connection it is, from 0.
    pub fn number(&self) -> u64
        ensures { result ≡ self.now.number }
    {
        self.number
    }

    /// Who asks.
    pub fn peer(&self) -> Peer
        ensures { view_of_peer result ≡ self.now.peer }
    {
        self.peer
    }

    /// The bytes of the record.
    pub fn record(&self) -> &Bytes
        ensures { result.now ≡ self.now.asked }
    {
        &self.asked
    }

    /// The record itself.
    pub fn into_record(self) -> Bytes
        ensures { result ≡ self.asked }
    {
        self.asked
    }
}
