//! Tests of the words of the server.
use crate::rows::all_hold;
use s7_args::{ServerWords, read_server_words};
use std::alloc::Global;

/// What words are read as.
enum Wanted {
    /// One link is served. The fields are the area file, the file to which the areas are saved, and the journal's room.
    Pipe(&'static str, Option<&'static str>, u64),
    /// Links of the areas `a` are served over TCP. The fields are the port, the number of links, the file to which the
    /// areas are saved, the journal's room, and the entry after which the areas are printed.
    Serve(u16, u16, Option<&'static str>, u64, Option<u64>),
}

/// The words of a command, and what they are read as.
type Line = (&'static [&'static str], Wanted);

/// Commands that serve one link.
const PIPES: &[Line] = &[
    (&["pipe", "a.txt"], Wanted::Pipe("a.txt", None, 65_536)),
    (&["pipe", "-"], Wanted::Pipe("-", None, 65_536)),
    (&["pipe", ""], Wanted::Pipe("", None, 65_536)),
    (&["pipe", "a b"], Wanted::Pipe("a b", None, 65_536)),
    (&["pipe", "pipe"], Wanted::Pipe("pipe", None, 65_536)),
    (
        &["pipe", "a.txt", "--save", "b.txt"],
        Wanted::Pipe("a.txt", Some("b.txt"), 65_536),
    ),
    (
        &["pipe", "--save", "b.txt", "a.txt"],
        Wanted::Pipe("a.txt", Some("b.txt"), 65_536),
    ),
    (
        &["pipe", "a.txt", "--save=b.txt"],
        Wanted::Pipe("a.txt", Some("b.txt"), 65_536),
    ),
    (
        &["pipe", "--save=b.txt", "a.txt"],
        Wanted::Pipe("a.txt", Some("b.txt"), 65_536),
    ),
    (
        &["pipe", "a.txt", "--save="],
        Wanted::Pipe("a.txt", Some(""), 65_536),
    ),
    (
        &["pipe", "a.txt", "--save", ""],
        Wanted::Pipe("a.txt", Some(""), 65_536),
    ),
    (
        &["pipe", "a.txt", "--save", "-"],
        Wanted::Pipe("a.txt", Some("-"), 65_536),
    ),
    (
        &["pipe", "a.txt", "--save=-x"],
        Wanted::Pipe("a.txt", Some("-x"), 65_536),
    ),
    (
        &["pipe", "a.txt", "--save=b=c"],
        Wanted::Pipe("a.txt", Some("b=c"), 65_536),
    ),
    (
        &["pipe", "--", "a.txt"],
        Wanted::Pipe("a.txt", None, 65_536),
    ),
    (&["pipe", "--", "-x"], Wanted::Pipe("-x", None, 65_536)),
    (&["pipe", "--", "--"], Wanted::Pipe("--", None, 65_536)),
    (
        &["pipe", "--", "--save"],
        Wanted::Pipe("--save", None, 65_536),
    ),
    (
        &["pipe", "a.txt", "--"],
        Wanted::Pipe("a.txt", None, 65_536),
    ),
    (
        &["pipe", "--save", "b.txt", "--", "a.txt"],
        Wanted::Pipe("a.txt", Some("b.txt"), 65_536),
    ),
    // Journals have their room.
    (&["pipe", "a", "--journal", "1"], Wanted::Pipe("a", None, 1)),
    (
        &["pipe", "--journal=262144", "a"],
        Wanted::Pipe("a", None, 262_144),
    ),
    (
        &["pipe", "a", "--journal", "+0065536"],
        Wanted::Pipe("a", None, 65_536),
    ),
    (
        &["pipe", "--journal", "3", "a", "--save", "b"],
        Wanted::Pipe("a", Some("b"), 3),
    ),
    (
        &["pipe", "--save=b", "--journal=3", "a"],
        Wanted::Pipe("a", Some("b"), 3),
    ),
];

/// Commands that serve links over TCP.
const SERVES: &[Line] = &[
    (&["serve", "a"], Wanted::Serve(102, 16, None, 65_536, None)),
    (
        &["serve", "--", "a"],
        Wanted::Serve(102, 16, None, 65_536, None),
    ),
    (
        &[
            "serve",
            "a",
            "--port",
            "1",
            "--links",
            "1",
            "--journal",
            "1",
            "--save",
            "",
        ],
        Wanted::Serve(1, 1, Some(""), 1, None),
    ),
    (
        &[
            "serve",
            "--save=b",
            "--journal=262144",
            "--links=1024",
            "--port=65535",
            "a",
        ],
        Wanted::Serve(65_535, 1024, Some("b"), 262_144, None),
    ),
    // Areas are shown at an entry.
    (
        &["serve", "a", "--at", "0"],
        Wanted::Serve(102, 16, None, 65_536, Some(0)),
    ),
    (
        &["serve", "--at=262144", "a"],
        Wanted::Serve(102, 16, None, 65_536, Some(262_144)),
    ),
    (
        &["serve", "a", "--at", "+007"],
        Wanted::Serve(102, 16, None, 65_536, Some(7)),
    ),
];

/// What words are to be read as.
fn words_of(wanted: &Wanted) -> ServerWords<'static> {
    match *wanted {
        Wanted::Pipe(areas, save, journal) => ServerWords::Pipe {
            areas,
            save,
            journal,
        },
        Wanted::Serve(port, links, save, journal, at) => ServerWords::Serve {
            areas: "a",
            port,
            links,
            save,
            journal,
            at,
        },
    }
}

/// What words are read as. The function promises nothing, so that its callers are cheap to prove.
fn read<'a>(alloc: Global, words: &'a [&'a str]) -> Option<Option<ServerWords<'a>>> {
    read_server_words(alloc, words).ok()
}

/// Reports whether the words are read as these.
fn are_read(alloc: Global, words: &[&str], wanted: ServerWords) -> bool {
    match read(alloc, words) {
        Some(words) => words == Some(wanted),
        None => false,
    }
}

/// The number of the first line, from 0, that isn't read so.
fn unmet(alloc: Global, lines: &[Line]) -> Option<usize> {
    let mut number = 0usize;
    for (words, wanted) in lines {
        if !are_read(alloc, words, words_of(wanted)) {
            return Some(number);
        }
        number = number.saturating_add(1);
    }
    None
}

/// The first command of one link that isn't read so. Each table stands in a function of its own, so that the test is
/// cheap to prove.
fn unmet_pipe(alloc: Global) -> Option<usize> {
    unmet(alloc, PIPES)
}

/// The first command of links over TCP that isn't read so.
fn unmet_serve(alloc: Global) -> Option<usize> {
    unmet(alloc, SERVES)
}

/// The server's commands are read from their words.
#[test]
fn server_lines(rt: HostRuntime) {
    all_hold(&rt, unmet_pipe(rt.alloc()));
    all_hold(&rt, unmet_serve(rt.alloc()));
}
