//! Tests of the crates that read and write octets, and of the objects in memory.
#![tactic(auto)]

#[cfg(test)]
mod area;
#[cfg(test)]
mod block;
#[cfg(test)]
mod block_name;
#[cfg(test)]
mod clock;
#[cfg(test)]
mod cotp;
#[cfg(test)]
mod days;
#[cfg(test)]
mod header;
#[cfg(test)]
mod item;
#[cfg(test)]
mod memory;
#[cfg(test)]
mod rows;
#[cfg(test)]
mod schedule;
#[cfg(test)]
mod split;
#[cfg(test)]
mod symbol;
#[cfg(test)]
mod szl;
#[cfg(test)]
mod tpkt;
#[cfg(test)]
mod wire;
#[cfg(test)]
mod wire_reader;
