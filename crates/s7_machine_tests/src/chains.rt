//! Chains of programs over TCP: the tool runs the scripts of `examples/` against the server, and against the relay
//! before a server whose areas are others. A server is also lost between two reads, and started again.
//!
//! Each program of a chain runs in a thread of its own, and reports itself whether it left what is wanted. Only `relayed`
//! calls `relay_main`, since each function that calls it is costly to prove.
use crate::called::{TellingDoor, a_door, a_pipe, an_output, listens, serve};
use crate::callers::{Told, port_of};
use crate::line::{
    Doorway, Line, a_dial, ask, call_here, listen_from, new_door, next, takes, telegram,
};
use crate::rows::all_hold;
use crate::tools::{inserts_all, tells_over, word_of};
use s7_memory::{HoldGate, MemoryFiles, MemoryOut};
use s7_os::TcpDial;
use s7_outer::Arrival;
use s7_plant::Tail;
use s7_relay_main::{RelayEnd, relay_main};
use s7_server_main::ServerEnd;
use std::alloc::Global;
use std::sync::{OnceLock, Wait};
use std::thread::{Threads, join};
use std::time::Clock;

/// The texts of files by their paths. The first nine are those of `examples/`.
const FILES: &[(&str, &str)] = &[
    ("reader.script", "read DB1 byte 0 4\n"),
    ("writer.script", "write DB1 byte 0 aabbccdd\n"),
    ("jobs.script", JOBS),
    ("blocks.script", BLOCKS),
    ("drive.script", DRIVE),
    ("drive.tags", DRIVE_TAGS),
    ("plant.areas", PLANT),
    ("panel.script", PANEL),
    ("panel.windows", PANEL_WINDOWS),
    ("moved.areas", MOVED),
    (
        "again.script",
        "read DB1 byte 0 4\nwrite DB1 byte 0 aabbccdd\nread DB1 byte 0 4\nread DB1 byte 0 4\n",
    ),
];

const JOBS: &str = "# what a data logger reads, and what it notes\nread DB1 byte 0 8\n\
    readmany DB1 word 0 1 ; MK bit 3.1 1\nwrite MK bit 3.1 01\nwrite DB2 byte 0 cafe\n\
    read DB2 byte 0 4\nreadmany DB1 word 0 1 ; MK bit 3.1 1\n";

const BLOCKS: &str = "# loads function 5, reads its image back, and deletes it\n\
    download 70700101050C000500000026000000000000000000000000000000000000000000000002AABB\n\
    upload FC 5\ndelete FC 5\n";

const DRIVE: &str =
    "get Speed\nget Position\nget Running\nget Batch\nget Delay\nget Name\nget Since\n\
    # Backwards, at 1,500 a minute.\nput Speed -1500\nget Speed\n";

const DRIVE_TAGS: &str = "# What stands in DB1 of a drive.\nSpeed INT DB1 0\nPosition DINT DB1 2\n\
    Running BOOL DB1 6.0\nBatch BCD DB1 8\nDelay S5TIME DB1 10\nName STRING[4] DB1 12\n\
    Since DATE_AND_TIME DB1 18\n";

const PLANT: &str = "s7 areas 2\n\
    # flags, and two data blocks: a recipe of 8 octets, and a log of 1,024 octets 00\n\
    MK 4\n00000000\nDB 1 8\n1122334455667788\nDB 2 1024\n1024*00\n";

const PANEL: &str =
    "# what a panel reads, and what it notes\nread DB1 byte 0 4\nwrite DB10 byte 0 cafe\n\
    read DB10 byte 0 4\n# no window has the flags\nread MK byte 0 4\n";

const PANEL_WINDOWS: &str =
    "# what a panel sees of plant.areas: the middle of the recipe, and the head of the log\n\
    DB1 4 = DB1 2\nDB10 16 = DB2 0\n";

/// The plant's areas inside others: the flags from octet 2 on, the recipe from octet 3 on.
const MOVED: &str =
    "s7 areas 2\nMK 6\nffff00000000\nDB 7 12\nffffff1122334455667788ff\nDB 9 1024\n1024*00\n";

const MOVED_WINDOWS: &str = "MK 4 = MK 2\nDB1 8 = DB7 3\nDB2 1024 = DB9 0\n";

/// What the scripts print. `drive.script` has a comment in line 8.
const READER_RESULTS: &str = "0 connect 00000000 -\n1 read 00000000 11223344\n";

const WRITER_RESULTS: &str = "0 connect 00000000 -\n1 write 00000000 -\n";

const JOBS_RESULTS: &str = "0 connect 00000000 -\n2 read 00000000 1122334455667788\n\
    3 readmany 00000000 FF:1122 FF:00\n4 write 00000000 -\n5 write 00000000 -\n\
    6 read 00000000 cafe0000\n7 readmany 00000000 FF:1122 FF:01\n";

const DRIVE_RESULTS: &str = "0 connect 00000000 -\n1 get 00000000 -2\n2 get 00000000 101106\n\
    3 get 00000000 1\n4 get 00000000 907\n5 get 00000000 123.1\n6 get 00000000 4142\n\
    7 get 00000000 2024-02-29T13:45:30.123\n9 put 00000000 -\n10 get 00000000 -1500\n";

const BLOCKS_RESULTS: &str = "0 connect 00000000 -\n2 download 00000000 -\n\
    3 upload 00000000 70700101050c000500000026000000000000000000000000000000000000000000000002aabb\n\
    4 delete 00000000 -\n";

/// The last read is of an area that no window has, and isn't asked.
const PANEL_RESULTS: &str = "0 connect 00000000 -\n2 read 00000000 33445566\n3 write 00000000 -\n\
    4 read 00000000 cafe0000\n6 read 00C00000 -\n";

/// A relay has no blocks, and asks nothing.
const BLOCKS_REFUSED: &str =
    "0 connect 00000000 -\n2 download 01400000 -\n3 upload 01400000 -\n4 delete 01400000 -\n";

/// The read that meets the lost server is refused. The next one reads of a server that starts anew.
const AGAIN_RESULTS: &str = "0 connect 00000000 -\n1 read 00000000 11223344\n2 write 00000000 -\n\
    3 read 02300000 -\n4 read 00000000 11223344\n";

/// The programs between the tool and the server.
#[derive(Clone, Copy)]
enum Way {
    /// None.
    Direct,
    /// The relay.
    Relayed,
    /// The relay, whose first link to the server is lost after four telegrams.
    Lost,
}

/// A chain: its way, the words of the tool before those of the port, the server's areas, the text of the windows file,
/// and how often the server is started for one link; then the tool's status, and what the tool, the relay and the
/// server print.
struct Row {
    way: Way,
    words: &'static [&'static str],
    areas: &'static str,
    windows: &'static str,
    starts: u32,
    status: u8,
    results: &'static str,
    relayed: &'static str,
    served: &'static str,
}

const DRIVE_OCTETS: &str = "DB1=FFFE00018AF20100090711230402414200002402291345301235";

const MOVED_DRIVE: &str = "DB3=00FFFE00018AF20100090711230402414200002402291345301235";

const ROWS: &[Row] = &[
    Row {
        way: Way::Direct,
        words: &["run", "reader.script"],
        areas: "DB1=11223344",
        windows: "",
        starts: 1,
        status: 0,
        results: READER_RESULTS,
        relayed: "",
        served: "link 1 ended entries 1\njournal 1\n",
    },
    Row {
        way: Way::Relayed,
        words: &["run", "reader.script"],
        areas: "DB7=0000000000000000000011223344",
        windows: "DB1 4 = DB7 10\n",
        starts: 1,
        status: 0,
        results: READER_RESULTS,
        relayed: "link 1 ended entries 1\njournal 1\n",
        served: "link 1 ended entries 1\njournal 1\n",
    },
    Row {
        way: Way::Direct,
        words: &["run", "writer.script"],
        areas: "DB1=11223344",
        windows: "",
        starts: 1,
        status: 0,
        results: WRITER_RESULTS,
        relayed: "",
        served: "link 1 ended entries 1\njournal 1\n",
    },
    Row {
        way: Way::Relayed,
        words: &["run", "writer.script"],
        areas: "DB7=0000000000000000000011223344",
        windows: "DB1 4 = DB7 10\n",
        starts: 1,
        status: 0,
        results: WRITER_RESULTS,
        relayed: "link 1 ended entries 1\njournal 1\n",
        served: "link 1 ended entries 1\njournal 1\n",
    },
    Row {
        way: Way::Direct,
        words: &["run", "jobs.script"],
        areas: "plant.areas",
        windows: "",
        starts: 1,
        status: 0,
        results: JOBS_RESULTS,
        relayed: "",
        served: "link 1 ended entries 6\njournal 6\n",
    },
    Row {
        way: Way::Relayed,
        words: &["run", "jobs.script"],
        areas: "moved.areas",
        windows: MOVED_WINDOWS,
        starts: 1,
        status: 0,
        results: JOBS_RESULTS,
        relayed: "link 1 ended entries 6\njournal 6\n",
        served: "link 1 ended entries 6\njournal 6\n",
    },
    Row {
        way: Way::Direct,
        words: &["run", "drive.script", "--tags", "drive.tags"],
        areas: DRIVE_OCTETS,
        windows: "",
        starts: 1,
        status: 0,
        results: DRIVE_RESULTS,
        relayed: "",
        served: "link 1 ended entries 9\njournal 9\n",
    },
    Row {
        way: Way::Relayed,
        words: &["run", "drive.script", "--tags", "drive.tags"],
        areas: MOVED_DRIVE,
        windows: "DB1 26 = DB3 1\n",
        starts: 1,
        status: 0,
        results: DRIVE_RESULTS,
        relayed: "link 1 ended entries 9\njournal 9\n",
        served: "link 1 ended entries 9\njournal 9\n",
    },
    Row {
        way: Way::Direct,
        words: &["run", "blocks.script"],
        areas: "DB1=00",
        windows: "",
        starts: 1,
        status: 0,
        results: BLOCKS_RESULTS,
        relayed: "",
        served: "link 1 ended entries 3\njournal 3\n",
    },
    Row {
        way: Way::Relayed,
        words: &["run", "blocks.script"],
        areas: "DB1=00",
        windows: "DB1 1 = DB1 0\n",
        starts: 0,
        status: 6,
        results: BLOCKS_REFUSED,
        relayed: "link 1 ended entries 3\njournal 3\n",
        served: "",
    },
    Row {
        way: Way::Relayed,
        words: &["run", "panel.script"],
        areas: "plant.areas",
        windows: PANEL_WINDOWS,
        starts: 1,
        status: 6,
        results: PANEL_RESULTS,
        relayed: "link 1 ended entries 4\njournal 4\n",
        served: "link 1 ended entries 3\njournal 3\n",
    },
    Row {
        way: Way::Lost,
        words: &["run", "again.script"],
        areas: "DB7=0000000000000000000011223344",
        windows: "DB1 4 = DB7 10\n",
        starts: 2,
        status: 6,
        results: AGAIN_RESULTS,
        relayed: "link 1 ended entries 4\njournal 4\n",
        served: "link 1 ended entries 2\njournal 2\nlink 1 ended entries 1\njournal 1\n",
    },
];

/// The ports of the server, of the way to it that is lost, and of the relay. Each is reported once.
#[derive(Drop)]
struct Ports {
    server: Told,
    way: Told,
    relay: Told,
}

/// The files of a program, and the output to which it prints.
struct Stage {
    files: MemoryFiles,
    out: MemoryOut,
}

// It is dropped by a function of its own, so that what drops it is soon proved.
impl Drop for Stage {
    fn drop(self) {
        let Stage { files: _, out: _ } = self;
    }
}

/// The files, and a windows file of this text.
fn files(alloc: Global, windows: &str) -> Option<MemoryFiles> {
    let mut files = MemoryFiles::new();
    if inserts_all(&mut files, alloc, &[("w.txt", windows)])
        && inserts_all(&mut files, alloc, FILES)
    {
        Some(files)
    } else {
        None
    }
}

/// A program that isn't started yet, with a windows file of this text.
fn a_stage(alloc: Global, windows: &str) -> Option<Stage> {
    let files = files(alloc, windows)?;
    let out = an_output(alloc)?;
    Some(Stage { files, out })
}

/// A reported port as a word.
fn word_at<R: Wait>(rt: &R, alloc: Global, told: &Told) -> Option<String> {
    word_of(alloc, port_of(rt, told)?)
}

/// The next link of a door.
fn arrived(door: &mut Doorway) -> Option<Line> {
    match next(door) {
        Arrival::Link(line) => Some(line),
        Arrival::End | Arrival::Failed => None,
    }
}

/// Reports whether a server ended with status 0.
fn is_over(end: Option<ServerEnd<Line, Tail>>) -> bool {
    match end {
        Some(end) => end.status == 0,
        None => false,
    }
}

/// Has a server serve one link of a door. Reports whether it ended with status 0.
fn serves_one<R: Threads + Wait + Clock + Sync>(
    rt: &R,
    alloc: Global,
    areas: &str,
    pipe: Line,
    door: &mut TellingDoor<'_>,
    stage: &mut Stage,
) -> bool {
    let words = ["serve", areas, "--links", "1"];
    let gate = HoldGate::new(0, 0, 1);
    let end = serve(
        rt,
        alloc,
        &words,
        0,
        &mut stage.files,
        pipe,
        door,
        &gate,
        &mut stage.out,
    );
    is_over(end)
}

/// The same. The server doesn't use its standard streams.
fn serves<R: Threads + Wait + Clock + Sync>(
    rt: &R,
    host: HostRuntime,
    areas: &str,
    door: &mut TellingDoor<'_>,
    stage: &mut Stage,
) -> bool {
    match a_pipe(host) {
        Some(pipe) => serves_one(rt, host.alloc(), areas, pipe, door, stage),
        None => false,
    }
}

/// Starts the server as often as the row says, each time for one link. Reports whether it printed what the row says.
fn serves_all<R: Threads + Wait + Clock + Sync>(
    rt: &R,
    host: HostRuntime,
    row: &Row,
    door: &mut TellingDoor<'_>,
    stage: &mut Stage,
) -> bool {
    for _ in 0..row.starts {
        if !serves(rt, host, row.areas, door, stage) {
            return false;
        }
    }
    stage.out.text() == row.served.as_bytes()
}

/// Reports whether the server leaves what the row says. Its door listens before it is started.
fn server_goes<R: Threads + Wait + Clock + Sync>(
    rt: &R,
    host: HostRuntime,
    row: &Row,
    ports: &Ports,
) -> bool {
    let mut door = a_door(host, &ports.server);
    let has_port = listens(&mut door, 27_102);
    match a_stage(host.alloc(), "") {
        Some(mut stage) => has_port && serves_all(rt, host, row, &mut door, &mut stage),
        None => false,
    }
}

/// Passes a telegram on to the server, and its answer to the client. Reports whether both went.
fn passes_on(alloc: Global, client: &mut Line, server: &mut Line, asked: &[u8]) -> bool {
    match ask(alloc, server, asked) {
        Some(answer) => takes(client, answer.as_slice()),
        None => false,
    }
}

/// Passes on the next telegram of a client, and what the server answers it. Reports whether both went.
fn passes_one(alloc: Global, client: &mut Line, server: &mut Line) -> bool {
    match telegram(alloc, client) {
        Some(asked) => passes_on(alloc, client, server, asked.as_slice()),
        None => false,
    }
}

/// Passes on at most this number of telegrams of a client, with their answers.
fn passes_most(alloc: Global, client: &mut Line, server: &mut Line, most: u32) {
    for _ in 0..most {
        if !passes_one(alloc, client, server) {
            return;
        }
    }
}

/// Passes on at most this number of telegrams of a client to the server of the port. The server's link is lost then.
/// Reports whether there was one.
fn passes_to(host: HostRuntime, client: &mut Line, port: u16, most: u32) -> bool {
    match call_here(&host, port) {
        Some(mut server) => {
            passes_most(host.alloc(), client, &mut server, most);
            true
        }
        None => false,
    }
}

/// Passes on at most this number of telegrams of the next client of a door to the server of the port. Both links are
/// lost then. Reports whether there were both.
fn passes(host: HostRuntime, door: &mut Doorway, port: u16, most: u32) -> bool {
    match arrived(door) {
        Some(mut client) => passes_to(host, &mut client, port, most),
        None => false,
    }
}

/// Passes on four telegrams of the first link of a door, and all of the second. Reports whether both came.
fn loses<R: Wait>(rt: &R, host: HostRuntime, ports: &Ports) -> bool {
    let mut door = new_door(&host);
    let _ = ports.way.try_set(listen_from(&mut door, 27_202));
    match port_of(rt, &ports.server) {
        Some(port) => passes(host, &mut door, port, 4) && passes(host, &mut door, port, 1_000),
        None => false,
    }
}

/// Reports whether the way to the server goes as the row says.
fn way_goes<R: Wait>(rt: &R, host: HostRuntime, row: &Row, ports: &Ports) -> bool {
    match row.way {
        Way::Direct | Way::Relayed => true,
        Way::Lost => loses(rt, host, ports),
    }
}

/// What the relay leaves. Nothing is promised of it.
fn relayed<R: Wait + Clock>(
    rt: &R,
    alloc: Global,
    words: &[&str],
    files: &mut MemoryFiles,
    pipe: Line,
    dial: TcpDial<HostRuntime>,
    out: &mut MemoryOut,
) -> RelayEnd<Line, TcpDial<HostRuntime>, Line> {
    relay_main(rt, alloc, words, files, pipe, dial, out)
}

/// Reports whether a relay ended with status 0.
fn is_relayed(end: RelayEnd<Line, TcpDial<HostRuntime>, Line>) -> bool {
    end.status == 0
}

/// The next link of a door that listens now, and whose port is reported.
fn link_of(host: HostRuntime, told: &Told) -> Option<Line> {
    let mut door = new_door(&host);
    let _ = told.try_set(listen_from(&mut door, 27_302));
    arrived(&mut door)
}

/// Has the relay serve a link. The server is at this port. Reports whether it ended with status 0.
fn relays_one<R: Wait + Clock>(
    rt: &R,
    host: HostRuntime,
    port: &str,
    pipe: Line,
    stage: &mut Stage,
) -> bool {
    let words = ["w.txt", "--port", port];
    let end = relayed(
        rt,
        host.alloc(),
        &words,
        &mut stage.files,
        pipe,
        a_dial(&host),
        &mut stage.out,
    );
    is_relayed(end)
}

/// Has the relay serve the next link of its door. Reports whether it ended with status 0.
fn relays_next<R: Wait + Clock>(
    rt: &R,
    host: HostRuntime,
    port: &str,
    near: &Told,
    stage: &mut Stage,
) -> bool {
    match link_of(host, near) {
        Some(pipe) => relays_one(rt, host, port, pipe, stage),
        None => false,
    }
}

/// Reports whether the relay leaves what the row says. The server is at this port.
fn relays_to<R: Wait + Clock>(
    rt: &R,
    host: HostRuntime,
    row: &Row,
    port: &str,
    near: &Told,
) -> bool {
    match a_stage(host.alloc(), row.windows) {
        Some(mut stage) => {
            relays_next(rt, host, port, near, &mut stage)
                && stage.out.text() == row.relayed.as_bytes()
        }
        None => false,
    }
}

/// Reports whether the relay leaves what the row says. The server is at the port that is reported.
fn relays<R: Wait + Clock>(rt: &R, host: HostRuntime, row: &Row, far: &Told, near: &Told) -> bool {
    match word_at(rt, host.alloc(), far) {
        Some(port) => relays_to(rt, host, row, port.as_str(), near),
        None => false,
    }
}

/// Reports whether the relay leaves what the row says, if the row has one. If it never listened, no port is reported.
fn relay_goes<R: Wait + Clock>(rt: &R, host: HostRuntime, row: &Row, ports: &Ports) -> bool {
    let is_so = match row.way {
        Way::Direct => row.relayed.is_empty(),
        Way::Relayed => relays(rt, host, row, &ports.server, &ports.relay),
        Way::Lost => relays(rt, host, row, &ports.way, &ports.relay),
    };
    let _ = ports.relay.try_set(None);
    is_so
}

/// Reports whether the tool leaves what the row says, over these words and files.
fn runs_over(host: HostRuntime, row: &Row, words: &[&str], files: &mut MemoryFiles) -> bool {
    match tells_over(host, words, files, 65_536) {
        Some(told) => told.status == row.status && told.out.text() == row.results.as_bytes(),
        None => false,
    }
}

/// Reports whether the tool leaves what the row says, over these words.
fn runs(host: HostRuntime, row: &Row, words: &[&str]) -> bool {
    match files(host.alloc(), "") {
        Some(mut files) => runs_over(host, row, words, &mut files),
        None => false,
    }
}

/// The words of the tool with the port.
fn words_with<'a>(alloc: Global, words: &[&'a str], port: &'a str) -> Option<Vec<&'a str>> {
    let mut all = Vec::from_slice(alloc, words).ok()?;
    all.push("--port").ok()?;
    all.push(port).ok()?;
    Some(all)
}

/// Reports whether the tool leaves what the row says. Its peer is at this port.
fn runs_at(host: HostRuntime, row: &Row, port: &str) -> bool {
    match words_with(host.alloc(), row.words, port) {
        Some(words) => runs(host, row, words.as_slice()),
        None => false,
    }
}

/// The port of the tool's peer.
fn peer_of<'a>(row: &Row, ports: &'a Ports) -> &'a Told {
    match row.way {
        Way::Direct => &ports.server,
        Way::Relayed | Way::Lost => &ports.relay,
    }
}

/// Reports whether the tool leaves what the row says.
fn tool_goes<R: Wait>(rt: &R, host: HostRuntime, row: &Row, ports: &Ports) -> bool {
    match word_at(rt, host.alloc(), peer_of(row, ports)) {
        Some(port) => runs_at(host, row, port.as_str()),
        None => false,
    }
}

/// Reports whether the server, and the way to it, leave beside one another what the row says.
fn far_goes<R: Threads + Wait + Clock + Sync>(
    rt: &R,
    host: HostRuntime,
    row: &Row,
    ports: &Ports,
) -> (bool, bool) {
    join(
        rt,
        || server_goes(rt, host, row, ports),
        || way_goes(rt, host, row, ports),
    )
}

/// Reports whether the relay and the tool leave beside one another what the row says.
fn near_goes<R: Threads + Wait + Clock + Sync>(
    rt: &R,
    host: HostRuntime,
    row: &Row,
    ports: &Ports,
) -> (bool, bool) {
    join(
        rt,
        || relay_goes(rt, host, row, ports),
        || tool_goes(rt, host, row, ports),
    )
}

/// Reports whether all programs of a chain leave beside one another what the row says.
fn all_go<R: Threads + Wait + Clock + Sync>(
    rt: &R,
    host: HostRuntime,
    row: &Row,
    ports: &Ports,
) -> ((bool, bool), (bool, bool)) {
    join(
        rt,
        || far_goes(rt, host, row, ports),
        || near_goes(rt, host, row, ports),
    )
}

/// Reports whether a chain goes as its row says.
fn goes<R: Threads + Wait + Clock + Sync>(rt: &R, host: HostRuntime, row: &Row) -> bool {
    let ports = Ports {
        server: OnceLock::new(),
        way: OnceLock::new(),
        relay: OnceLock::new(),
    };
    all_go(rt, host, row, &ports) == ((true, true), (true, true))
}

/// The number of the first row that doesn't hold.
fn unmet<R: Threads + Wait + Clock + Sync>(
    rt: &R,
    host: HostRuntime,
    rows: &[Row],
) -> Option<usize> {
    for (number, row) in rows.iter().enumerate() {
        if !goes(rt, host, row) {
            return Some(number);
        }
    }
    None
}

/// Chains of programs leave what the rows say.
#[test]
fn chains_go(rt: HostRuntime) {
    all_hold(&rt, unmet(&rt, rt, ROWS));
}
