//! Tests of the tables: who holds and who waits for ranges of bytes, owners and their numbers, how many runs hosts have, and the
//! state beside the locks: the grace period, shares, kept replies, the server's own calls, hosts and the own state. There is
//! nothing in it but tests.
#![tactic(auto)]

#[cfg(test)]
mod boots;
#[cfg(test)]
mod calls;
#[cfg(test)]
mod counts;
#[cfg(test)]
mod hosts;
#[cfg(test)]
mod learned;
#[cfg(test)]
mod locks;
#[cfg(test)]
mod own_states;
#[cfg(test)]
mod owner;
#[cfg(test)]
mod owners;
#[cfg(test)]
mod phases;
#[cfg(test)]
mod random;
#[cfg(test)]
mod ranges;
#[cfg(test)]
mod replies;
#[cfg(test)]
mod row;
#[cfg(test)]
mod shares;
#[cfg(test)]
mod tiers;
#[cfg(test)]
mod waits;
#[cfg(test)]
mod wrong;
