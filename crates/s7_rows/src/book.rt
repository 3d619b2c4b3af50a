//! Compares the book that a server leaves with what a row states.
use crate::compare::{block_of, compare_count, compare_item, compare_line};
use crate::row::Row;
use crate::texts::add_number;
use crate::wrong::Wrong;
use s7_area::AreaKey;
use s7_item::Item;
use s7_plant::{Book, Entry, Event, Observer, Request, Tail};

/// Appends the differences of a server's book to `differences`.
pub fn compare_book(
    row: &Row<'_>,
    book: &Book<Tail>,
    differences: &mut String,
) -> Result<(), Wrong> {
    compare_blocks(row, book, differences)?;
    compare_count(row, 0, "loaded", loaded(book), differences)?;
    let entries = entries(book);
    compare_count(row, 0, "entries", entries.len() as u64, differences)?;
    compare_rights(row, entries, differences)?;
    compare_told(row, book, differences)
}

/// Compares the octets of data blocks with those that the row states.
fn compare_blocks(row: &Row<'_>, book: &Book<Tail>, differences: &mut String) -> Result<(), Wrong> {
    for k in 0..u64::MAX {
        let Some(value) = row.nth(0, "block", k) else {
            break;
        };
        let (number, item) = block_of(value)?;
        compare_item(row, "block", item, octets_of(book, number), differences)?;
    }
    Ok(())
}

/// The octets of a data block.
pub fn octets_of(book: &Book<Tail>, number: u16) -> &[u8] {
    let key = AreaKey { area: 0x84, number };
    book.plant.areas.octets_of(key).unwrap_or(&[])
}

/// The number of blocks in the store.
fn loaded(book: &Book<Tail>) -> u64 {
    book.plant.blocks.len() as u64
}

/// The entries of the journal.
pub fn entries(book: &Book<Tail>) -> &[Entry] {
    book.journal.as_slice()
}

/// Compares the rights of the entries with those that the row states: `+` is an entry with the right, `-` one without
/// it.
fn compare_rights(row: &Row<'_>, entries: &[Entry], differences: &mut String) -> Result<(), Wrong> {
    let mut rights = String::new(row.alloc);
    for entry in entries {
        rights.push(if entry.ask.right { '+' } else { '-' })?;
    }
    compare_line(row, 0, "rights", rights.as_str(), differences)
}

/// Appends a difference of what a link's entries ask. `place` is the number of the link in the row's lines.
pub fn compare_asked(
    row: &Row<'_>,
    place: u64,
    link: u32,
    entries: &[Entry],
    differences: &mut String,
) -> Result<(), Wrong> {
    let mut asked = String::new(row.alloc);
    for entry in entries {
        if entry.link == link {
            add_request(&entry.ask.request, &mut asked)?;
        }
    }
    compare_line(row, place, "asked", asked.as_str(), differences)
}

/// Appends what is asked, after a stroke if `text` isn't empty.
fn add_request(request: &Request, text: &mut String) -> Result<(), Wrong> {
    if !text.is_empty() {
        text.push_str(" / ")?;
    }
    match request {
        Request::Read { items } => {
            text.push_str("read")?;
            add_items(items.as_slice(), text)
        }
        Request::Write { items, .. } => {
            text.push_str("write")?;
            add_items(items.as_slice(), text)
        }
        _ => Ok(text.push_str("other")?),
    }
}

/// Appends items.
fn add_items(items: &[Item], text: &mut String) -> Result<(), Wrong> {
    for item in items {
        add_item(item, text)?;
    }
    Ok(())
}

/// Appends an item's area in hexadecimal digits, its data block, its word length, its count and its address.
fn add_item(item: &Item, text: &mut String) -> Result<(), Wrong> {
    let (area, block, word) = (item.area, item.db, item.word);
    let (count, address) = (item.count, item.address);
    let item = format!(in *text.allocator(); " {area:02X}.{block}.{word}.{count}.{address}")?;
    Ok(text.push_str(item.as_str())?)
}

/// Compares the events that the observer was notified of with those that the row states.
fn compare_told(row: &Row<'_>, book: &Book<Tail>, differences: &mut String) -> Result<(), Wrong> {
    let mut told = String::new(row.alloc);
    if let Some(watcher) = book.observers.first() {
        add_told(&watcher.observer, &mut told)?;
    }
    compare_line(row, 0, "told", told.as_str(), differences)
}

/// Appends how many events an observer was notified of, and the newest one: its number, link, code and error word.
fn add_told(observer: &Tail, text: &mut String) -> Result<(), Wrong> {
    add_number(observer.count(), text)?;
    match observer.newest(0) {
        Some(event) => add_event(&event, text),
        None => Ok(()),
    }
}

/// Appends an event: its number, link, code and error word.
fn add_event(event: &Event, text: &mut String) -> Result<(), Wrong> {
    let (number, link) = (event.number, event.link);
    let (code, error) = (event.code, event.error);
    let event = format!(in *text.allocator(); " {number} {link} {code:08x} {error:04x}")?;
    Ok(text.push_str(event.as_str())?)
}
