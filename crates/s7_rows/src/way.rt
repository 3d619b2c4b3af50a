//! The ways in which a row is run.
use crate::parts::{number, range};
use crate::row::Row;
use crate::wrong::Wrong;
use s7_memory::Fate;

/// One run of a row.
#[derive(Clone, Copy)]
pub struct Way {
    /// The most octets that a call of a link moves.
    pub most: u64,
    /// The number of octets that are given of what comes on a link.
    pub first: u64,
    /// How many calls of the first link pass before one that waits.
    pub waits: Option<u64>,
}

/// The ways of a row. There is one for each pair of a number of octets that a call of a link moves and a number of
/// octets that come, or a call that waits.
pub fn ways_of(row: &Row<'_>) -> Result<Vec<Way>, Wrong> {
    let mut ways = Vec::new(row.alloc);
    for cut in row.value(0, "cut").unwrap_or("8192").split(' ') {
        let way = Way {
            most: number(cut)?,
            first: u64::MAX,
            waits: None,
        };
        add_ways(row, way, &mut ways)?;
    }
    Ok(ways)
}

/// Appends the ways that begin with this one.
fn add_ways(row: &Row<'_>, way: Way, ways: &mut Vec<Way>) -> Result<(), Wrong> {
    if let Some(firsts) = row.value(0, "first") {
        return add_firsts(firsts, way, ways);
    }
    match row.value(0, "waits") {
        Some(waits) => add_waits(waits, way, ways),
        None => Ok(ways.push(way)?),
    }
}

/// Appends this way once for each number of a range `A..B`: only as many octets come.
fn add_firsts(firsts: &str, way: Way, ways: &mut Vec<Way>) -> Result<(), Wrong> {
    let (from, to) = range(firsts)?;
    for first in from..to {
        ways.push(Way { first, ..way })?;
    }
    Ok(())
}

/// Appends this way once for each number of a range `A..B`: as many calls pass before one that waits.
fn add_waits(waits: &str, way: Way, ways: &mut Vec<Way>) -> Result<(), Wrong> {
    let (from, to) = range(waits)?;
    for passing in from..to {
        let waits = Some(passing);
        ways.push(Way { waits, ..way })?;
    }
    Ok(())
}

/// The fates of the calls of a link, one after another.
pub fn fates_of(row: &Row<'_>, way: &Way, link: u64) -> Result<Vec<Fate>, Wrong> {
    let mut fates = Vec::new(row.alloc);
    for letter in row.value(link, "fates").unwrap_or("").bytes() {
        fates.push(match letter {
            b'-' => Fate::Pass,
            b'w' => Fate::NotYet,
            _ => Fate::Fail,
        })?;
    }
    if let Some(passing) = way.waits {
        add_wait(passing, &mut fates)?;
    }
    Ok(fates)
}

/// Appends the fates of a call that waits after others.
fn add_wait(passing: u64, fates: &mut Vec<Fate>) -> Result<(), Wrong> {
    for _ in 0..passing {
        fates.push(Fate::Pass)?;
    }
    Ok(fates.push(Fate::NotYet)?)
}
