//! Tests of clients, partners, rigs, scripts and command lines as libraries: calls that no program makes, or whose
//! answers no program prints.
#![tactic(auto)]

#[cfg(test)]
mod alone;
#[cfg(test)]
mod areas;
#[cfg(test)]
mod asks;
#[cfg(test)]
mod client_links;
#[cfg(test)]
mod clients;
#[cfg(test)]
mod completions;
#[cfg(test)]
mod exchange;
#[cfg(test)]
mod held;
#[cfg(test)]
mod jobs;
#[cfg(test)]
mod links;
#[cfg(test)]
mod octets;
#[cfg(test)]
mod pairs;
#[cfg(test)]
mod partner_links;
#[cfg(test)]
mod pipes;
#[cfg(test)]
mod printing;
#[cfg(test)]
mod rigs;
#[cfg(test)]
mod rows;
#[cfg(test)]
mod scene;
#[cfg(test)]
mod scripts;
#[cfg(test)]
mod sends;
#[cfg(test)]
mod server_words;
#[cfg(test)]
mod tag_scripts;
#[cfg(test)]
mod together;
#[cfg(test)]
mod tool_words;
#[cfg(test)]
mod watchers;
#[cfg(test)]
mod watches;
#[cfg(test)]
mod words;
#[cfg(test)]
mod wrong_lines;
