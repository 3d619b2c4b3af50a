//! The callers of a server over TCP. They call once it listens.
ghost use Rattle.std.specs.Prelude.{◌≡◌, None, IfOk};
ghost use Rattle.s7_client.specs.Completions.{connection_of};
ghost use Rattle.s7_client.specs.Polling.{job_of};

use crate::line::{Line, ask, call_here, late_answer, rest_of, takes};
use crate::shared::telegrams_of;
use crate::telegrams::{CONNECT, READ, SETUP, appends, joined, packets};
use s7_client::{Client, Config, Counter, Job, JobResult};
use s7_item::Item;
use s7_item::codes::{BYTE, DATA_BLOCKS};
use s7_outer::{Got, Memory, Octets};
use std::alloc::Global;
use std::sync::{OnceLock, Wait};
use std::thread::{Threads, map_vec};

/// The port on which a server listens, reported once. It is none if the server listens on no port.
pub(crate) type Told = OnceLock<Option<u16>>;

/// Who calls a server.
pub(crate) enum Callers {
    /// Nobody, since the server listens on no port.
    Nobody,
    /// Links of one caller, opened one after another. Each sends its telegrams by one call, and receives up to the end.
    AtOnce(&'static [&'static [&'static [u8]]]),
    /// One caller of two links that are negotiated. The first one ends by these octets, and the second one reads after
    /// that.
    Ends(&'static [u8]),
    /// One caller whose link sends a connect request, receives one octet of the answer and is dropped, which resets the
    /// connection.
    Resets,
    /// A client that connects, reads four octets and disconnects.
    Reads,
    /// Ten callers at a time, each of which has twenty links, one after another. Each link connects, negotiates, reads
    /// twice and goes.
    ComeAndGo,
    /// Eight clients that write data blocks of their own and a shared one.
    Share,
}

/// The port, once the server listens.
pub(crate) fn port_of<R: Wait>(rt: &R, told: &Told) -> Option<u16> {
    *told.wait(rt)
}

/// What came to each caller, in order.
pub(crate) fn come_to<R: Threads + Wait + Sync>(
    rt: &R,
    host: HostRuntime,
    told: &Told,
    callers: &Callers,
) -> Option<Vec<Vec<Octets>>> {
    match callers {
        Callers::Nobody => alone(host, 0, callers),
        Callers::ComeAndGo => many(rt, host, port_of(rt, told)?, 10, 20),
        Callers::Share => many(rt, host, port_of(rt, told)?, 8, 1),
        _ => alone(host, port_of(rt, told)?, callers),
    }
}

/// Carries out what one caller does. Reports whether it goes on to the end. The octets that came are appended.
fn calls(host: HostRuntime, port: u16, callers: &Callers, came: &mut Vec<Octets>) -> bool {
    match callers {
        Callers::AtOnce(asks) => at_once(host, port, asks, came),
        Callers::Ends(last) => one_ends(host, port, last, came),
        Callers::Resets => resets(host, port),
        Callers::Reads => appends(came, read_by_client(host, port)),
        Callers::Nobody | Callers::ComeAndGo | Callers::Share => true,
    }
}

/// What came to one caller.
fn alone(host: HostRuntime, port: u16, callers: &Callers) -> Option<Vec<Vec<Octets>>> {
    let mut came = Vec::new(host.alloc());
    if calls(host, port, callers, &mut came) {
        only(host.alloc(), came)
    } else {
        None
    }
}

/// What came to callers, of whom there is one.
fn only(alloc: Global, came: Vec<Octets>) -> Option<Vec<Vec<Octets>>> {
    let mut all = Vec::new(alloc);
    match all.push(came) {
        Ok(()) => Some(all),
        Err(_) => None,
    }
}

/// A link on which this is sent by one call.
fn sent(host: HostRuntime, port: u16, octets: &[u8]) -> Option<Line> {
    let mut line = call_here(&host, port)?;
    if takes(&mut line, octets) {
        Some(line)
    } else {
        None
    }
}

/// A link that sent these telegrams by one call.
fn opened(host: HostRuntime, port: u16, telegrams: &[&[u8]]) -> Option<Line> {
    sent(host, port, joined(host.alloc(), telegrams)?.as_slice())
}

/// Appends a link. Reports whether it is there, and memory is left for it.
fn appends_link(lines: &mut Vec<Line>, line: Option<Line>) -> bool {
    match line {
        Some(line) => lines.push(line).is_ok(),
        None => false,
    }
}

/// Opens links one after another, and appends them. Reports whether all are opened.
fn opens_all(host: HostRuntime, port: u16, asks: &[&[&[u8]]], lines: &mut Vec<Line>) -> bool {
    for telegrams in asks {
        if !appends_link(lines, opened(host, port, telegrams)) {
            return false;
        }
    }
    true
}

/// Appends the octets that come up to the end of each link. Reports whether each end comes.
fn ends_all(alloc: Global, lines: &mut [Line], came: &mut Vec<Octets>) -> bool {
    for line in lines {
        if !appends(came, rest_of(alloc, line)) {
            return false;
        }
    }
    true
}

/// Opens links, and appends the octets that come up to the end of each. Reports whether each end comes.
fn at_once(host: HostRuntime, port: u16, asks: &[&[&[u8]]], came: &mut Vec<Octets>) -> bool {
    let mut lines = Vec::new(host.alloc());
    opens_all(host, port, asks, &mut lines) && ends_all(host.alloc(), lines.as_mut_slice(), came)
}

/// Asks with each telegram, and appends the answers. Reports whether all are answered.
fn asks_all(
    alloc: Global,
    line: &mut Line,
    telegrams: &[Octets],
    answers: &mut Vec<Octets>,
) -> bool {
    for telegram in telegrams {
        if !appends(answers, ask(alloc, line, telegram.as_slice())) {
            return false;
        }
    }
    true
}

/// A link on which each telegram is answered. The answers are appended.
fn a_link(
    host: HostRuntime,
    port: u16,
    telegrams: &[Octets],
    answers: &mut Vec<Octets>,
) -> Option<Line> {
    let mut line = call_here(&host, port)?;
    if asks_all(host.alloc(), &mut line, telegrams, answers) {
        Some(line)
    } else {
        None
    }
}

/// Ends the first link by the octets that it sends, while the second one is still served, which reads after that. The
/// octets that came at the end of the first are appended last.
fn ends_first(
    alloc: Global,
    first: &mut Line,
    second: &mut Line,
    last: &[u8],
    came: &mut Vec<Octets>,
) -> bool {
    takes(first, last) && appends_both(came, rest_of(alloc, first), ask(alloc, second, READ))
}

/// Appends an answer, and the octets that came before it. Reports whether both are there, and memory is left for them.
fn appends_both(came: &mut Vec<Octets>, rest: Option<Octets>, answer: Option<Octets>) -> bool {
    appends(came, answer) && appends(came, rest)
}

/// The same, once the first link is negotiated. The second one is negotiated before the first ends.
fn ends_beside(
    host: HostRuntime,
    port: u16,
    opening: &[Octets],
    last: &[u8],
    came: &mut Vec<Octets>,
) -> Option<bool> {
    let mut first = a_link(host, port, opening, came)?;
    let mut second = a_link(host, port, opening, came)?;
    Some(ends_first(host.alloc(), &mut first, &mut second, last, came))
}

/// Opens two links, of which the first ends by the octets that it sends, while the second is still served. The octets
/// that came at the end of the first are appended last.
fn one_ends(host: HostRuntime, port: u16, last: &[u8], came: &mut Vec<Octets>) -> bool {
    match packets(host.alloc(), &[CONNECT, SETUP]) {
        Some(opening) => ends_beside(host, port, opening.as_slice(), last, came) == Some(true),
        None => false,
    }
}

/// Reports whether an octet comes on a link.
fn gets_one(alloc: Global, line: &mut Line) -> bool {
    matches!(
        late_answer(line, 1, 100, &mut Vec::new(alloc)),
        Got::Bytes(_)
    )
}

/// Reports whether an octet comes on a link that sent a connect request.
fn resets(host: HostRuntime, port: u16) -> bool {
    match opened(host, port, &[CONNECT]) {
        Some(mut line) => gets_one(host.alloc(), &mut line),
        None => false,
    }
}

/// The telegrams that a caller sends on each of its links. A caller of one link writes data blocks.
fn telegrams(alloc: Global, links: u8, number: u8) -> Option<Vec<Octets>> {
    if links == 1 {
        telegrams_of(alloc, number)
    } else {
        packets(alloc, &[CONNECT, SETUP, READ, READ])
    }
}

/// Opens links one after another, which send these telegrams. The answers are appended. A link with a fault does not
/// keep the next one from being opened, since the server waits for all of them.
fn call_on(
    host: HostRuntime,
    port: u16,
    links: u8,
    telegrams: &[Octets],
    answers: &mut Vec<Octets>,
) {
    for _ in 0..links {
        drop(a_link(host, port, telegrams, answers));
    }
}

/// The answers that came to a caller, whose links are opened one after another.
fn answers_to(host: HostRuntime, port: u16, links: u8, number: u8) -> Vec<Octets> {
    let mut answers = Vec::new(host.alloc());
    if let Some(telegrams) = telegrams(host.alloc(), links, number) {
        call_on(host, port, links, telegrams.as_slice(), &mut answers);
    }
    answers
}

/// The numbers from 1 to this one.
fn numbers(alloc: Global, last: u8) -> Option<Vec<u8>> {
    let mut numbers = Vec::new(alloc);
    for number in 1..=last {
        numbers.push(number).ok()?;
    }
    Some(numbers)
}

/// The answers that came to callers that call at the same time.
fn many<R: Threads + Sync>(
    rt: &R,
    host: HostRuntime,
    port: u16,
    callers: u8,
    links: u8,
) -> Option<Vec<Vec<Octets>>> {
    map_vec(
        rt,
        numbers(host.alloc(), callers)?,
        &|number: u8| answers_to(host, port, links, number),
    )
    .ok()
}

/// Four bytes of data block 1, from the first one on.
const FOUR_BYTES: Item = Item {
    area: DATA_BLOCKS,
    db: 1,
    word: BYTE,
    count: 4,
    address: 0,
};

/// A client without a completion, which isn't connected.
fn a_client(alloc: Global) -> Result<Client<Counter>, Memory>
    ensures { IfOk result (λ client. job_of (connection_of client) ≡ None) }
{
    Client::new(alloc, Config::new(1, 0, 2), None)
}

/// The result of a job. There is none if memory is missing.
fn done(alloc: Global, client: &mut Client<Counter>, job: Job, line: &mut Line) -> Option<JobResult>
    requires { job_of (connection_of client.old) ≡ None }
    ensures { job_of (connection_of client.new) ≡ None }
{
    client.carry_out(alloc, job, line).ok()
}

/// The octets of a job's result. There are none if its code isn't 0.
fn good_octets(told: Option<JobResult>) -> Option<Octets> {
    match told {
        Some(
            JobResult {
                code: 0,
                octets,
                ..
            },
        ) => Some(octets),
        _ => None,
    }
}

/// The octets of a job's result. There are none if its code isn't 0.
fn octets_of(
    alloc: Global,
    client: &mut Client<Counter>,
    job: Job,
    line: &mut Line,
) -> Option<Octets>
    requires { job_of (connection_of client.old) ≡ None }
    ensures { job_of (connection_of client.new) ≡ None }
{
    good_octets(done(alloc, client, job, line))
}

/// Reports whether a job succeeds.
fn comes_off(alloc: Global, client: &mut Client<Counter>, job: Job, line: &mut Line) -> bool
    requires { job_of (connection_of client.old) ≡ None }
    ensures { job_of (connection_of client.new) ≡ None }
{
    octets_of(alloc, client, job, line).is_some()
}

/// The octets that a client reads between its connect and its disconnect. There are none if a job doesn't succeed.
fn octets_read(alloc: Global, client: &mut Client<Counter>, line: &mut Line) -> Option<Octets>
    requires { job_of (connection_of client.old) ≡ None }
{
    if !comes_off(alloc, client, Job::Connect, line) {
        return None;
    }
    let octets = octets_of(alloc, client, Job::ReadArea { item: FOUR_BYTES }, line);
    if comes_off(alloc, client, Job::Disconnect, line) {
        octets
    } else {
        None
    }
}

/// The octets that a client reads on a link.
fn read_on(alloc: Global, line: &mut Line) -> Option<Octets> {
    let mut client = a_client(alloc).ok()?;
    octets_read(alloc, &mut client, line)
}

/// The octets that a client reads on a new link.
fn read_by_client(host: HostRuntime, port: u16) -> Option<Octets> {
    read_on(host.alloc(), &mut call_here(&host, port)?)
}
