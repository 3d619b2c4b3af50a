//! Tests of the completions of a client that carries out jobs.
ghost use Rattle.std.specs.Prelude.{◌≡◌, IfSome, None};
ghost use Rattle.s7_client.specs.Completions.{connection_of};
ghost use Rattle.s7_client.specs.Polling.{job_of};

use crate::clients::granted;
use crate::held::{Done, HeldJob};
use crate::links::memory_link;
use crate::words::octets_of;
use s7_client::{Client, Config, Counter, Job, StartFault};
use s7_memory::MemoryLink;
use s7_outer::Octets;
use std::alloc::Global;

/// The confirm and the grant that the link gives, octet by octet.
const CONFIRM_AND_GRANT: &str = "\
0300001611d00001000100c0010ac1020100c2020102 0300001b02f080320300000001000800000000f0000001000101e0";

/// Carries out a job. Reports whether it ends with this code.
fn ends_with(
    alloc: Global,
    client: &mut Client<Counter>,
    job: Job,
    link: &mut MemoryLink,
    code: u32,
) -> bool
    requires { job_of (connection_of client.old) ≡ None }
    ensures { job_of (connection_of client.new) ≡ None }
{
    match client.carry_out(alloc, job, link) {
        Ok(told) => {
            let done = Done { told };
            done.told.code == code
        }
        Err(StartFault { cause: _, job }) => {
            let _back = HeldJob { job };
            false
        }
    }
}

/// Reports whether the counter counted one job, which had this number and succeeded.
fn is_told_once(counter: &Option<Counter>, number: u8) -> bool {
    match counter {
        Some(counter) => counter.calls() == 1 && is_last(counter, number),
        None => false,
    }
}

/// Reports whether the last job that the counter counted had this number and succeeded.
pub(crate) fn is_last(counter: &Counter, number: u8) -> bool {
    match counter.last() {
        Some((last, code)) => last == number && code == 0,
        None => false,
    }
}

/// A client that has no job.
fn a_client(alloc: Global) -> Option<Client<Counter>>
    ensures { IfSome result (λ client. job_of (connection_of client) ≡ None) }
{
    Client::new(alloc, Config::new(1, 0, 2), Some(Counter::new())).ok()
}

/// A link that gives the answers to a connect.
fn a_link(alloc: Global) -> Option<MemoryLink> {
    let input = Octets::of_vec(octets_of(alloc, CONFIRM_AND_GRANT)?);
    memory_link(alloc, input, 1, 4_096)
}

/// Replaces the completion, which is handed out.
fn swapped(client: &mut Client<Counter>, done: Option<Counter>) -> Option<Counter>
    requires { job_of (connection_of client.old) ≡ None }
    ensures { job_of (connection_of client.new) ≡ None }
{
    client.set_completion(done)
}

/// Reports whether the client connects.
fn connects(alloc: Global, client: &mut Client<Counter>, link: &mut MemoryLink) -> bool
    requires { job_of (connection_of client.old) ≡ None }
    ensures { job_of (connection_of client.new) ≡ None }
{
    let connected = ends_with(alloc, client, Job::Connect, link, 0);
    match granted(client) {
        Some(pdu) => connected && pdu == 480,
        None => false,
    }
}

/// Reports whether each completion counts the jobs that are done while the client has it.
fn are_told(alloc: Global, client: &mut Client<Counter>, link: &mut MemoryLink) -> bool
    requires { job_of (connection_of client.old) ≡ None }
{
    let connected = connects(alloc, client, link);
    let first = swapped(client, Some(Counter::new()));
    let disconnected = ends_with(alloc, client, Job::Disconnect, link, 0);
    let second = swapped(client, None);
    let listed = ends_with(alloc, client, Job::List, link, 0x0001_0000);
    let none = swapped(client, Some(Counter::new()));
    let told = is_told_once(&first, 1) && is_told_once(&second, 25) && none.is_none();
    connected && disconnected && listed && told
}

/// Reports whether each completion of a new client counts these jobs.
fn is_told(alloc: Global) -> Option<bool> {
    let mut link = a_link(alloc)?;
    let mut client = a_client(alloc)?;
    Some(are_told(alloc, &mut client, &mut link))
}

/// Each completion of a client counts the jobs that are done while the client has it.
#[test]
fn each_completion_is_told_of_its_jobs(rt: HostRuntime) {
    assert!(rt; is_told(rt.alloc()) == Some(true));
}
