//! Tests of plants, books, turns, sessions, windows and relays as libraries. They make calls that no program makes, or
//! compare answers that no program prints.
//!
//! Most tests are tables of rows. A plant or a book has to meet the rows of a table one after another. The modules
//! `plants`, `books`, `tails` and `requests` describe how a row is written, and `fields` how octets are written.
#![tactic(auto)]

#[cfg(test)]
mod areas;
#[cfg(test)]
mod blocks;
#[cfg(test)]
mod books;
#[cfg(test)]
mod control;
#[cfg(test)]
mod fields;
#[cfg(test)]
mod halls;
#[cfg(test)]
mod images;
#[cfg(test)]
mod passages;
#[cfg(test)]
mod plants;
#[cfg(test)]
mod relays;
#[cfg(test)]
mod requests;
#[cfg(test)]
mod rows;
#[cfg(test)]
mod sessions;
#[cfg(test)]
mod tails;
#[cfg(test)]
mod turns;
#[cfg(test)]
mod windows;
