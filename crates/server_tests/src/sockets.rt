//! A server over loopback: connections and workers beside each other, calls in one write, a GRANTED to its peer
//! and what the peer says to it, more connections than there are places, and what is noted of those that are closed, a local program that waits, a
//! peer that says nothing, port mappers of peers and of the server, calls by datagram, operators who ask for pages, and a grace
//! period that begins anew.
mod calls;
mod client;
mod datagrams;
mod local;
mod mapped;
mod noted;
mod overlapping;
mod pages;
mod registered;
mod seating;
mod sending;
mod servers;
mod talks;
