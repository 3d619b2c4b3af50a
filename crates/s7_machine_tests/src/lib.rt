//! Tests over the machine and its threads: the objects over the operating system, links that are served at once, the
//! server and the tool as their programs call them, over TCP, and chains of programs.
#![tactic(auto)]

#[cfg(test)]
mod books;
#[cfg(test)]
mod called;
#[cfg(test)]
mod callers;
#[cfg(test)]
mod chains;
#[cfg(test)]
mod coming;
#[cfg(test)]
mod doors;
#[cfg(test)]
mod feigned;
#[cfg(test)]
mod files;
#[cfg(test)]
mod halls;
#[cfg(test)]
mod line;
#[cfg(test)]
mod links;
#[cfg(test)]
mod rows;
#[cfg(test)]
mod sends;
#[cfg(test)]
mod servers;
#[cfg(test)]
mod shared;
#[cfg(test)]
mod telegrams;
#[cfg(test)]
mod tools;
#[cfg(test)]
mod walk;
#[cfg(test)]
mod watched;
