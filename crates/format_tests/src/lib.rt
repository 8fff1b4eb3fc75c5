//! Tests of formats: what goes over the wire, what messages say, and texts that are printed and read. There is nothing in it but
//! tests.
#![tactic(auto)]

#[cfg(test)]
mod messages;
#[cfg(test)]
mod texts;
#[cfg(test)]
mod wire;
#[cfg(test)]
mod words;
