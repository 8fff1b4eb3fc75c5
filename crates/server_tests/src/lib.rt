//! Tests of the book apart from the daemon above it, and of what serves it: where a segment of its journal is full, where the audit
//! misses a receipt and where its store is begun, the threads over one book, and a server over loopback. There is nothing in it but
//! tests.
#![tactic(auto)]

#[cfg(test)]
mod auditing;
#[cfg(test)]
mod hall;
#[cfg(test)]
mod lasting;
#[cfg(test)]
mod rotation;
#[cfg(test)]
mod sockets;
#[cfg(test)]
mod threads;
#[cfg(test)]
mod words;
