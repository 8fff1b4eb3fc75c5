//! The worked rows, from bytes to bytes: what a client sends, what it is sent, and what the server calls. Each is a script, which
//! `daemon_scripts` plays through `Daemon::run`: that cuts streams into records, reads them, does them in the book and writes what
//! each is answered. `pipe` has those of `lockd pipe` and `lockd table`, over readers and writers. The store is one in memory; rows over a
//! database stand in `store_tests`, and the threads that serve a book in `server_tests`. There is nothing in it but tests.
#![tactic(auto)]

#[cfg(test)]
mod by_message;
#[cfg(test)]
mod client;
#[cfg(test)]
mod connections;
#[cfg(test)]
mod cuts;
#[cfg(test)]
mod full;
#[cfg(test)]
mod growths;
#[cfg(test)]
mod limits;
#[cfg(test)]
mod lines;
#[cfg(test)]
mod monitor;
#[cfg(test)]
mod notices;
#[cfg(test)]
mod pipe;
#[cfg(test)]
mod polls;
#[cfg(test)]
mod quotas;
#[cfg(test)]
mod reclaims;
#[cfg(test)]
mod repeats;
#[cfg(test)]
mod rows;
#[cfg(test)]
mod stores;
#[cfg(test)]
mod streams;
#[cfg(test)]
mod versions;
#[cfg(test)]
mod waits;
