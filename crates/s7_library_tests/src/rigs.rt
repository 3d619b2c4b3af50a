//! Tests of rigs: the entry numbers of reads, the text of a rig, and the scripts that are drawn.
ghost use Rattle.std.specs.Prelude.{◌≡◌, ◌<◌, ◌≤◌, ◌*◌, All, length, map, IfSome, ◌∷◌, []};
ghost use Rattle.std.specs.List.{AllByRecursion};
ghost use Rattle.s7_header.specs.Negotiation.{most_pdu};
ghost use Rattle.s7_dialogue.specs.declared.job.Job.TheVariants.{Connect, Disconnect};
ghost use Rattle.s7_rig.specs.Scripts.{BeginsWell};
ghost use Rattle.s7_rig.specs.Shown.{script_told};

use crate::asks::is_same;
use crate::completions::is_last;
use crate::held::{HeldJob, Rig};
use crate::pairs::is_filled;
use s7_area::{AreaKey, Areas};
use s7_block::Blocks;
use s7_client::{Config, Counter, Job};
use s7_item::Item;
use s7_outer::Octets;
use s7_plant::{Book, MOST_BLOCKS, Request, Tail};
use s7_rig::{ClientScript, RigClient, RigEnd, Schedule, run_rig};
use s7_script::{Script, read_script};
use s7_tool_main::{Head, are_good, made_scripts, rig_text};
use std::alloc::Global;

/// Data block 1 with `count` octets 00.
fn zeros(alloc: Global, count: usize) -> Option<Areas> {
    let key = AreaKey {
        area: 0x84,
        number: 1,
    };
    let octets = Octets::of_vec(vec![in alloc; 0; count].ok()?);
    let mut areas = Areas::new();
    match areas.register(alloc, key, octets) {
        Ok(()) => Some(areas),
        Err(_) => None,
    }
}

/// The first bytes of data block 1, `count` of them.
fn bytes(count: u16) -> Item {
    Item {
        area: 0x84,
        db: 1,
        word: 0x02,
        count,
        address: 0,
    }
}

/// A connect, the job, and a disconnect, for a client that doesn't halt.
fn around(alloc: Global, job: Job) -> Option<ClientScript>
    ensures { IfSome result (λ script. script.jobs.items ≡ Connect ∷ job ∷ Disconnect ∷ []) }
{
    let Ok(mut jobs) = Vec::with_capacity(alloc, 3) else {
        let _job = HeldJob { job };
        return None;
    };
    jobs.push_reserved(Job::Connect);
    jobs.push_reserved(job);
    jobs.push_reserved(Job::Disconnect);
    Some(ClientScript { jobs, halts: false })
}

/// The end of a rig whose counter counted the first client's jobs.
fn told_rig(
    alloc: Global,
    areas: Areas,
    limit: u64,
    scripts: Vec<ClientScript>,
    config: Config,
    schedule: Schedule<'_>,
) -> Option<Rig>
    requires some { 1 ≤ limit }
    requires few { limit ≤ 262144 }
    requires least_pdu { 64 ≤ config.pdu }
    requires most_pdu { config.pdu ≤ most_pdu }
    requires least_jobs { 1 ≤ config.jobs }
    requires most_jobs { config.jobs ≤ 8 }
    requires polls { 1 ≤ config.polls }
    requires clients { 0 < length scripts.items }
    requires connects { AllByRecursion BeginsWell (map script_told scripts.items) }
    requires few_clients { length scripts.items ≤ 1025 }
    requires actors { All (λ actor. actor < 2 * length scripts.items) schedule.turns.now }
{
    let mut done = Some(Counter::new());
    match run_rig(alloc, areas, limit, scripts, config, schedule, &mut done) {
        Ok(end) => {
            let rig = Rig { end };
            if is_told(&rig.end, done) {
                Some(rig)
            } else {
                None
            }
        }
        Err(_) => None,
    }
}

/// The end of a client that reads 300 bytes, and one that writes AA to them, with a PDU length of 240.
fn a_reader_and_a_writer(alloc: Global, schedule: Schedule<'_>) -> Option<Rig>
    requires { All (λ actor. actor < 4) schedule.turns.now }
{
    let read = Job::ReadArea { item: bytes(300) };
    let write = Job::WriteArea {
        item: bytes(300),
        octets: Octets::of_vec(vec![in alloc; 0xAA; 300].ok()?),
    };
    let mut scripts = Vec::with_capacity(alloc, 2).ok()?;
    scripts.push_reserved(around(alloc, read)?);
    scripts.push_reserved(around(alloc, write)?);
    let config = Config {
        pdu: 240,
        polls: 1_000_000,
        ..Config::new(1, 0, 2)
    };
    told_rig(alloc, zeros(alloc, 300)?, 65_536, scripts, config, schedule)
}

/// Reports whether the counter counted the first client's jobs, with a disconnect as the last, and no others.
fn is_told(end: &RigEnd, done: Option<Counter>) -> bool {
    let (Some(client), Some(counter)) = (end.clients.first(), done) else {
        return false;
    };
    counter.calls() == client.results.len() as u64 && is_last(&counter, 25)
}

/// Reports whether the first client's read has code 0, octets 00 and AA after them, and these entry numbers.
fn reads_between(end: &RigEnd, zeros: usize, places: &[u64]) -> bool {
    let Some(client) = end.clients.first() else {
        return false;
    };
    let (Some(told), Some(numbers)) = (client.results.get(1), client.places.get(1)) else {
        return false;
    };
    told.code == 0
        && numbers.as_slice() == places
        && begins_with_zeros(told.octets.as_slice(), zeros).unwrap_or(false)
}

/// Reports whether there are 300 octets, the first ones 00, `zeros` of them, and the others AA.
fn begins_with_zeros(octets: &[u8], zeros: usize) -> Option<bool> {
    let front = octets.get(..zeros)?;
    let back = octets.get(zeros..)?;
    let is_so = is_filled(front, front.len(), 0)
        && is_filled(back, back.len(), 0xAA)
        && octets.len() == 300;
    Some(is_so)
}

/// Reports whether the job of the second client has these entry numbers.
fn is_placed(end: &RigEnd, places: &[u64]) -> bool {
    let Some(client) = end.clients.get(1) else {
        return false;
    };
    let Some(numbers) = client.places.get(1) else {
        return false;
    };
    numbers.as_slice() == places
}

/// Reports whether the entry of this number is the second client's write of `count` bytes of data block 1 at an
/// address.
fn is_written(end: &RigEnd, number: usize, count: u16, address: u32) -> bool {
    let Some(entry) = end.book.journal.as_slice().get(number) else {
        return false;
    };
    let item = Item {
        address,
        ..bytes(count)
    };
    match &entry.ask.request {
        Request::Write { items, .. } => entry.link == 2 && items.as_slice() == [item].as_slice(),
        _ => false,
    }
}

/// The end of a rig in which the reader's first part comes before the writer's two parts, and its second one after
/// them.
fn a_read_around_a_write(alloc: Global) -> Option<Rig> {
    let turns = [
        0, 2, 2, 0, 2, 2, 0, 0, 2, 2, 1, 3, 3, 1, 3, 3, 1, 1, 3, 3, 1, 3, 3, 1, 0, 2, 2, 0,
    ];
    let schedule = Schedule {
        turns: &turns,
        seed: 0,
        steps: 0,
    };
    a_reader_and_a_writer(alloc, schedule)
}

/// Reports whether the first 222 octets of the read are those before the write, and the others those after it.
fn stands_at_its_places(end: &RigEnd) -> bool {
    end.book.journal.len() == 4
        && reads_between(end, 222, &[0, 3])
        && is_placed(end, &[1, 2])
        && is_written(end, 1, 205, 0)
        && is_written(end, 2, 95, 1_640)
}

/// Reports whether a read of two parts has the octets that were there at the entry of each: the first part before a
/// write, and the second after it.
fn is_placed_around(alloc: Global) -> Option<bool> {
    let rig = a_read_around_a_write(alloc)?;
    Some(stands_at_its_places(&rig.end))
}

/// The parts of a read have the octets that were there at their entries.
#[test]
fn a_read_stands_at_its_places(rt: HostRuntime) {
    assert!(rt; is_placed_around(rt.alloc()) == Some(true));
}

/// A book with nothing in it.
fn a_book(alloc: Global) -> Option<Book<Tail>> {
    let blocks = Blocks::new(alloc, MOST_BLOCKS).ok()?;
    Book::new(alloc, Areas::new(), blocks, 1, Vec::new(alloc)).ok()
}

/// The lines of one script, of which there is one.
fn one_line(alloc: Global) -> Option<Vec<Vec<Head>>> {
    let mut lines = Vec::with_capacity(alloc, 1).ok()?;
    lines.push_reserved(Head { line: 0, tag: None });
    let mut heads = Vec::with_capacity(alloc, 1).ok()?;
    heads.push_reserved(lines);
    Some(heads)
}

/// The text of a rig whose one client, of link 3, has no results, and whether the rig is good.
fn text_without_results(
    alloc: Global,
    heads: &[Vec<Head>],
    book: Book<Tail>,
) -> Option<(Vec<u8>, bool)> {
    let mut clients = Vec::with_capacity(alloc, 1).ok()?;
    clients.push_reserved(RigClient {
        link: 3,
        results: Vec::new(alloc),
        places: Vec::new(alloc),
    });
    let end = RigEnd { book, clients };
    let text = rig_text(alloc, heads, &[], &end).ok()?;
    Some((text, are_good(heads, 1, end.clients.as_slice())))
}

/// Reports whether a client of link 3 with one line that has no result is printed as unfinished, and the rig is not
/// good.
fn is_unfinished(alloc: Global) -> Option<bool> {
    let heads = one_line(alloc)?;
    let (text, is_good) = text_without_results(alloc, heads.as_slice(), a_book(alloc)?)?;
    Some(text.as_slice() == b"client 3 unfinished\njournal 0\n".as_slice() && !is_good)
}

/// A client without results is printed as unfinished.
#[test]
fn a_client_may_be_unfinished(rt: HostRuntime) {
    assert!(rt; is_unfinished(rt.alloc()) == Some(true));
}

/// The first lines that the seed 7 draws, without the octets of the write.
const FIRST_LINES: &str = "\
read DB3 byte 1868 675
readmany MK byte 0 16 ; DB2 byte 2034 24
read DB2 byte 2213 364
write DB3 byte 749 ";

/// The script of these lines.
fn script_of(alloc: Global) -> Option<Script> {
    let mut text = Vec::new(alloc);
    text.extend_from_slice(FIRST_LINES.as_bytes()).ok()?;
    for _ in 0..323u32 {
        text.extend_from_slice(b"69").ok()?;
    }
    read_script(alloc, text.as_slice()).ok()
}

/// Reports whether the jobs after the connect begin with those of the script.
fn begin_so(alloc: Global, jobs: &[Job], script: &Script) -> Option<bool> {
    let mut place = 1usize;
    for line in script.as_slice() {
        if !is_same(alloc, &line.job, jobs.get(place)?)? {
            return Some(false);
        }
        place = place.saturating_add(1);
    }
    Some(true)
}

/// The scripts of four clients. The function promises nothing, so that its callers are cheap to prove.
fn scripts_of(alloc: Global) -> Option<Vec<Vec<Job>>> {
    made_scripts(alloc, 7).ok()
}

/// Reports whether these are four scripts of 202 jobs, and the first one begins with these lines.
fn are_so(alloc: Global, scripts: &[Vec<Job>], script: &Script) -> Option<bool> {
    let first = scripts.first()?.as_slice();
    let is_so = scripts.len() == 4
        && first.len() == 202
        && script.as_slice().len() == 4
        && begin_so(alloc, first, script)?;
    Some(is_so)
}

/// Reports whether such scripts are drawn.
fn are_drawn(alloc: Global) -> Option<bool> {
    let script = script_of(alloc)?;
    let scripts = scripts_of(alloc)?;
    are_so(alloc, scripts.as_slice(), &script)
}

/// The seed 7 draws the first lines.
#[test]
fn lines_are_drawn(rt: HostRuntime) {
    assert!(rt; are_drawn(rt.alloc()) == Some(true));
}
