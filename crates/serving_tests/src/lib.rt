//! Tests of all that the program does, from its words to its status: a stream over memory, hosts in a file, a server over loopback, and
//! the notes in front of a fault. There is nothing in it but tests.
#![tactic(auto)]

#[cfg(test)]
mod files;
#[cfg(test)]
mod learning;
#[cfg(test)]
mod notes;
#[cfg(test)]
mod peer_files;
#[cfg(test)]
mod runs;
#[cfg(test)]
mod servers;
#[cfg(test)]
mod streams;
#[cfg(test)]
mod trials;
