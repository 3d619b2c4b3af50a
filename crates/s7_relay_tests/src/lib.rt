//! Tests of the relay as its program calls it: rows over links in memory.
#![tactic(auto)]

#[cfg(test)]
mod octets;
#[cfg(test)]
mod rows;
