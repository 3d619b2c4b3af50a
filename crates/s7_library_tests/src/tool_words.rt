//! Tests of the words of the tool.
use crate::rows::all_hold;
use s7_args::{PartnerWords, RigWords, RunWords, ToolWords, read_tool_words};
use std::alloc::Global;

/// The host that is called if the words name none.
const LOCAL: &str = "127.0.0.1";

/// The words of a run: the script, the host, the port, the kind, the rack, the slot, the PDU length and the polls.
type Run = (&'static str, &'static str, u16, u8, u8, u8, u16, u32);

/// The words of a rig: the areas, the scripts, the turns, the seed, the steps, the PDU length and the journal's room.
type Rig = (
    &'static str,
    &'static [&'static str],
    &'static [u32],
    u32,
    u32,
    u16,
    u64,
);

/// The words of a rig with tags: the areas, the scripts, the turns, the tag file, the watched file and the rounds.
type Watch = (
    &'static str,
    &'static [&'static str],
    &'static [u32],
    Option<&'static str>,
    Option<&'static str>,
    u32,
);

/// The words of a partner: its file, the file of the other one, the host, the port, the seed and the steps.
type Partner = (
    &'static str,
    Option<&'static str>,
    &'static str,
    u16,
    u32,
    u32,
);

/// What words are read as.
enum Wanted {
    Run(Run),
    Rig(Rig),
    Watch(Watch),
    Partner(Partner),
    Usage,
}

/// The words of a command, and what they are read as.
type Line = (&'static [&'static str], Wanted);

/// Commands that run a script.
const RUNS: &[Line] = &[
    (
        &["run", "s"],
        Wanted::Run(("s", LOCAL, 102, 1, 0, 2, 480, 50)),
    ),
    (
        &["run", "--", "-s"],
        Wanted::Run(("-s", LOCAL, 102, 1, 0, 2, 480, 50)),
    ),
    (
        &["run", "s", "--host", "h"],
        Wanted::Run(("s", "h", 102, 1, 0, 2, 480, 50)),
    ),
    (
        &["run", "s", "--host="],
        Wanted::Run(("s", "", 102, 1, 0, 2, 480, 50)),
    ),
    (
        &["run", "--port", "1", "s"],
        Wanted::Run(("s", LOCAL, 1, 1, 0, 2, 480, 50)),
    ),
    (
        &["run", "s", "--port=65535"],
        Wanted::Run(("s", LOCAL, 65535, 1, 0, 2, 480, 50)),
    ),
    (
        &["run", "s", "--port=+007"],
        Wanted::Run(("s", LOCAL, 7, 1, 0, 2, 480, 50)),
    ),
    (
        &["run", "s", "--type", "1"],
        Wanted::Run(("s", LOCAL, 102, 1, 0, 2, 480, 50)),
    ),
    (
        &["run", "s", "--type", "3"],
        Wanted::Run(("s", LOCAL, 102, 3, 0, 2, 480, 50)),
    ),
    (
        &["run", "s", "--rack", "+0"],
        Wanted::Run(("s", LOCAL, 102, 1, 0, 2, 480, 50)),
    ),
    (
        &["run", "s", "--rack", "7"],
        Wanted::Run(("s", LOCAL, 102, 1, 7, 2, 480, 50)),
    ),
    (
        &["run", "s", "--slot", "0"],
        Wanted::Run(("s", LOCAL, 102, 1, 0, 0, 480, 50)),
    ),
    (
        &["run", "s", "--slot", "31"],
        Wanted::Run(("s", LOCAL, 102, 1, 0, 31, 480, 50)),
    ),
    (
        &["run", "s", "--pdu", "64"],
        Wanted::Run(("s", LOCAL, 102, 1, 0, 2, 64, 50)),
    ),
    (
        &["run", "s", "--pdu", "1920"],
        Wanted::Run(("s", LOCAL, 102, 1, 0, 2, 1_920, 50)),
    ),
    (
        &["run", "s", "--polls", "1"],
        Wanted::Run(("s", LOCAL, 102, 1, 0, 2, 480, 1)),
    ),
    (
        &["run", "s", "--polls", "00000000000000000000004294967295"],
        Wanted::Run(("s", LOCAL, 102, 1, 0, 2, 480, 4_294_967_295)),
    ),
    (
        &[
            "run",
            "--polls",
            "8",
            "--pdu=240",
            "--slot",
            "1",
            "s",
            "--rack=3",
            "--type",
            "2",
            "--port",
            "1102",
            "--host",
            "plc.example",
        ],
        Wanted::Run(("s", "plc.example", 1102, 2, 3, 1, 240, 8)),
    ),
];

/// Commands that run scripts together.
const RIGS: &[Line] = &[
    (
        &["rig", "a", "s"],
        Wanted::Rig(("a", &["s"], &[], 0, 0, 480, 65_536)),
    ),
    (
        &["rig", "", ""],
        Wanted::Rig(("", &[""], &[], 0, 0, 480, 65_536)),
    ),
    (
        &["rig", "DB1=00", "-", "s", "s", "rig"],
        Wanted::Rig(("DB1=00", &["-", "s", "s", "rig"], &[], 0, 0, 480, 65_536)),
    ),
    (
        &["rig", "--", "-a", "--seed", "--"],
        Wanted::Rig(("-a", &["--seed", "--"], &[], 0, 0, 480, 65_536)),
    ),
    (
        &["rig", "a", "s", "--", "-t"],
        Wanted::Rig(("a", &["s", "-t"], &[], 0, 0, 480, 65_536)),
    ),
    (
        &[
            "rig",
            "a",
            "s",
            "--seed",
            "4294967295",
            "t",
            "--steps=1000000",
            "u",
        ],
        Wanted::Rig((
            "a",
            &["s", "t", "u"],
            &[],
            4_294_967_295,
            1_000_000,
            480,
            65_536,
        )),
    ),
    (
        &["rig", "--pdu", "64", "a", "--journal=+01", "s"],
        Wanted::Rig(("a", &["s"], &[], 0, 0, 64, 1)),
    ),
    (
        &[
            "rig",
            "a",
            "s",
            "--pdu=1920",
            "--journal",
            "262144",
            "--seed=+0",
            "--steps",
            "0",
        ],
        Wanted::Rig(("a", &["s"], &[], 0, 0, 1_920, 262_144)),
    ),
    (
        &["rig", "a", "s", "--turns", "0,1,+1,01"],
        Wanted::Rig(("a", &["s"], &[0, 1, 1, 1], 0, 0, 480, 65_536)),
    ),
    (
        &["rig", "a", "--turns=3", "s", "t"],
        Wanted::Rig(("a", &["s", "t"], &[3], 0, 0, 480, 65_536)),
    ),
];

/// Commands that watch tags or may name them, and words that are usage.
const WATCHES: &[Line] = &[
    (
        &["rig", "a", "s"],
        Wanted::Watch(("a", &["s"], &[], None, None, 1)),
    ),
    (
        &["rig", "a", "s", "--tags", "t"],
        Wanted::Watch(("a", &["s"], &[], Some("t"), None, 1)),
    ),
    (
        &["rig", "a", "s", "--watch", "w"],
        Wanted::Watch(("a", &["s"], &[], None, Some("w"), 1)),
    ),
    (
        &["rig", "a", "s", "--watch", "w", "--rounds", "3"],
        Wanted::Watch(("a", &["s"], &[], None, Some("w"), 3)),
    ),
    (
        &[
            "rig",
            "--rounds=10000",
            "a",
            "--tags=t",
            "s",
            "--watch=w",
            "u",
        ],
        Wanted::Watch(("a", &["s", "u"], &[], Some("t"), Some("w"), 10_000)),
    ),
    (
        &["rig", "a", "s", "--watch="],
        Wanted::Watch(("a", &["s"], &[], None, Some(""), 1)),
    ),
    (
        &["rig", "a", "s", "--watch", "w", "--turns", "0,3"],
        Wanted::Watch(("a", &["s"], &[0, 3], None, Some("w"), 1)),
    ),
    (
        &["rig", "a", "s", "--watch", "w", "--turns", "4"],
        Wanted::Usage,
    ),
    (&["rig", "a", "s", "--turns", "2"], Wanted::Usage),
    (&["rig", "a", "s", "--rounds", "3"], Wanted::Usage),
    (
        &["rig", "a", "s", "--tags", "t", "--rounds", "1"],
        Wanted::Usage,
    ),
];

/// Commands of partners, and words that are usage.
const PARTNERS: &[Line] = &[
    (
        &["partner", "a"],
        Wanted::Partner(("a", None, LOCAL, 102, 0, 0)),
    ),
    (
        &["partner", "a", "b"],
        Wanted::Partner(("a", Some("b"), LOCAL, 102, 0, 0)),
    ),
    (
        &["partner", "--", "-a", "-b"],
        Wanted::Partner(("-a", Some("-b"), LOCAL, 102, 0, 0)),
    ),
    (
        &["partner", "a", ""],
        Wanted::Partner(("a", Some(""), LOCAL, 102, 0, 0)),
    ),
    (
        &["partner", "a", "--host", "h", "--port=65535"],
        Wanted::Partner(("a", None, "h", 65_535, 0, 0)),
    ),
    (
        &[
            "partner",
            "--seed",
            "4294967295",
            "a",
            "--steps=1000000",
            "b",
        ],
        Wanted::Partner(("a", Some("b"), LOCAL, 102, 4_294_967_295, 1_000_000)),
    ),
    (&["partner"], Wanted::Usage),
    (&["partner", "a", "b", "c"], Wanted::Usage),
    (&["partner", "-a"], Wanted::Usage),
    (&["partner", "a", "--port", "0"], Wanted::Usage),
    (&["partner", "a", "--seed", "4294967296"], Wanted::Usage),
    (&["partner", "a", "--steps", "1000001"], Wanted::Usage),
    (&["partner", "a", "--pdu", "64"], Wanted::Usage),
    (&["partner", "a", "--B", "b"], Wanted::Usage),
];

/// Reports whether the words are these.
fn is_run(run: &RunWords, wanted: &Run) -> bool {
    let (script, host, port, kind, rack, slot, pdu, polls) = *wanted;
    run.script == script
        && run.host == host
        && run.port == port
        && run.kind == kind
        && run.rack == rack
        && run.slot == slot
        && run.pdu == pdu
        && run.polls == polls
}

/// Reports whether the words are these.
fn is_rig(rig: &RigWords, wanted: &Rig) -> bool {
    let (areas, scripts, turns, seed, steps, pdu, journal) = *wanted;
    rig.areas == areas
        && rig.scripts.as_slice() == scripts
        && rig.turns.as_slice() == turns
        && rig.seed == seed
        && rig.steps == steps
        && rig.pdu == pdu
        && rig.journal == journal
}

/// Reports whether the words are these.
fn is_watch(rig: &RigWords, wanted: &Watch) -> bool {
    let (areas, scripts, turns, tags, watch, rounds) = *wanted;
    rig.areas == areas
        && rig.scripts.as_slice() == scripts
        && rig.turns.as_slice() == turns
        && rig.tags == tags
        && rig.watch == watch
        && rig.rounds == rounds
}

/// Reports whether the words are these.
fn is_partner(partner: &PartnerWords, wanted: &Partner) -> bool {
    let (one, other, host, port, seed, steps) = *wanted;
    partner.one == one
        && partner.other == other
        && partner.host == host
        && partner.port == port
        && partner.seed == seed
        && partner.steps == steps
}

/// Reports whether words are read as this.
fn say(words: &Option<ToolWords<'_>>, wanted: &Wanted) -> bool {
    match (words, wanted) {
        (Some(ToolWords::Run(run)), Wanted::Run(wanted)) => is_run(run, wanted),
        (Some(ToolWords::Rig(rig)), Wanted::Rig(wanted)) => is_rig(rig, wanted),
        (Some(ToolWords::Rig(rig)), Wanted::Watch(wanted)) => is_watch(rig, wanted),
        (Some(ToolWords::Partner(partner)), Wanted::Partner(wanted)) => is_partner(partner, wanted),
        (None, Wanted::Usage) => true,
        _ => false,
    }
}

/// What words are read as. The function promises nothing, so that its callers are cheap to prove.
fn words_of<'a>(alloc: Global, words: &'a [&'a str]) -> Option<Option<ToolWords<'a>>> {
    read_tool_words(alloc, words).ok()
}

/// Reads words. Reports whether they are read as this.
fn are_read(alloc: Global, words: &[&str], wanted: &Wanted) -> bool {
    match words_of(alloc, words) {
        Some(words) => say(&words, wanted),
        None => false,
    }
}

/// The number of the first line, from 0, that isn't read so.
fn unmet(alloc: Global, lines: &[Line]) -> Option<usize> {
    let mut number = 0usize;
    for (words, wanted) in lines {
        if !are_read(alloc, words, wanted) {
            return Some(number);
        }
        number = number.saturating_add(1);
    }
    None
}

/// The first run that isn't read so. Each table stands in a function of its own, so that the test is cheap to prove.
fn unmet_run(alloc: Global) -> Option<usize> {
    unmet(alloc, RUNS)
}

/// The first rig that isn't read so.
fn unmet_rig(alloc: Global) -> Option<usize> {
    unmet(alloc, RIGS)
}

/// The first rig with tags that isn't read so.
fn unmet_watch(alloc: Global) -> Option<usize> {
    unmet(alloc, WATCHES)
}

/// The first partner that isn't read so.
fn unmet_partner(alloc: Global) -> Option<usize> {
    unmet(alloc, PARTNERS)
}

/// The tool's commands are read from their words.
#[test]
fn tool_lines(rt: HostRuntime) {
    all_hold(&rt, unmet_run(rt.alloc()));
    all_hold(&rt, unmet_rig(rt.alloc()));
    all_hold(&rt, unmet_watch(rt.alloc()));
    all_hold(&rt, unmet_partner(rt.alloc()));
}

/// Reports whether the words are a command.
fn are_taken(alloc: Global, words: &[&str]) -> Option<bool> {
    Some(words_of(alloc, words)?.is_some())
}

/// A rig has at most 1,024 scripts.
#[test]
fn scripts_are_at_most_1024(rt: HostRuntime) {
    let mut words = ["s"; 1_027];
    words[0] = "rig";
    words[1] = "a";
    assert!(rt;
        are_taken(rt.alloc(), &words[..1_026]) == Some(true)
            && are_taken(rt.alloc(), &words) == Some(false)
    );
}
