//! One example for each way to use the libraries, as docs/LIBRARY.md shows them.
#![tactic(auto)]

#[cfg(test)]
mod areas;
#[cfg(test)]
mod client;
#[cfg(test)]
mod partner;
#[cfg(test)]
mod session;
#[cfg(test)]
mod turn;
