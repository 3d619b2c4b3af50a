//! A row with the lines of its table.
use crate::octets::Scope;
use crate::parts::{cut, number};
use crate::wrong::Wrong;
use std::alloc::Global;

/// A row: its title and its own lines, the lines of its table, and what its words may name.
#[derive(Clone, Copy)]
pub struct Row<'a> {
    pub alloc: Global,
    pub scope: Scope<'a>,
    pub table: &'a str,
    pub own: &'a str,
    pub title: &'a str,
}

impl<'a> Row<'a> {
    /// The value of a line with this word: the one after the first `before` such lines. It is one of the row's own
    /// lines if they have such a line, otherwise one of its table's.
    pub fn nth(&self, link: u64, word: &str, before: u64) -> Option<&'a str> {
        if find(self.own, link, word, 0).is_some() {
            find(self.own, link, word, before)
        } else {
            find(self.table, link, word, before)
        }
    }

    /// The value of the first line with the word.
    pub fn value(&self, link: u64, word: &str) -> Option<&'a str> {
        self.nth(link, word, 0)
    }

    /// The number after a word, or `other` if there is no such line.
    pub fn number_or(&self, link: u64, word: &str, other: u64) -> Result<u64, Wrong> {
        match self.value(link, word) {
            Some(text) => number(text),
            None => Ok(other),
        }
    }

    /// The number of links of the door: the greatest number of a line `link`.
    pub fn links(&self) -> Result<u64, Wrong> {
        Ok(most(self.own)?.max(most(self.table)?))
    }
}

/// The value of the line with this word that comes after the first `before` such lines, among these lines.
fn find<'a>(lines: &'a str, link: u64, word: &str, before: u64) -> Option<&'a str> {
    let mut of = 0;
    let mut left = before;
    for line in lines.split('\n') {
        let (first, value) = cut(line);
        if first == "link" {
            of = number(value).unwrap_or(0);
        } else if first == word && of == link {
            if left == 0 {
                return Some(value);
            }
            left -= 1;
        }
    }
    None
}

/// The greatest number of a line `link` among these lines.
fn most(lines: &str) -> Result<u64, Wrong> {
    let mut most = 0;
    for line in lines.split('\n') {
        if let Some(link) = line.strip_prefix("link ") {
            most = number(link)?.max(most);
        }
    }
    Ok(most)
}
