//! Trials of the store of hosts over a database: rows that a daemon plays over it, stops of its disk, alone and below a daemon,
//! refused growths, its limits, and files that it takes and refuses. There is nothing in it but tests.
#![tactic(auto)]

#[cfg(test)]
mod addresses;
#[cfg(test)]
mod adopting;
#[cfg(test)]
mod daemons;
#[cfg(test)]
mod growths;
#[cfg(test)]
mod orders;
#[cfg(test)]
mod pairs;
#[cfg(test)]
mod rows;
#[cfg(test)]
mod stops;
#[cfg(test)]
mod tables;
#[cfg(test)]
mod visits;
