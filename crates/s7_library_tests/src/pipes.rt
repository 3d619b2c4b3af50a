//! Tests of a client over pipes, by one poll after another.
//!
//! `starts JOB` makes the client start a job. `busy ITEM` makes it refuse a read, since another job is outstanding.
//! `polls idle`, `polls pending` and `polls CODE` are the outcomes of a poll, the last of a connect that is done with
//! this code. The server `puts OCTETS` into its pipe, and `takes OCTETS` out of the client's, all that wait there.
//! `waiting N` and `unread N` are the numbers of octets that wait for the server and for the client.
use crate::asks::job_of;
use crate::clients::{is_started, polled, start};
use crate::exchange::{Exchange, Form, Unmet, unmet};
use crate::held::{Done, HeldJob};
use crate::rows::all_forms_hold;
use crate::words::{are, hex_number, item_of, octets_of};
use s7_client::{Job, JobResult, Polled, StartCause, StartFault};
use s7_item::Item;
use s7_memory::{PipeEnd, Pipes, Side};
use s7_outer::{Got, Link, Sent};
use std::alloc::Global;

impl Exchange<'_> {
    /// Reports whether the client starts this job.
    pub(crate) fn starts(&mut self, ask: &str) -> Option<bool> {
        let job = job_of(self.alloc, ask)?;
        Some(is_started(&mut self.client, self.alloc, job))
    }

    /// Reports whether a read of this item is handed back while another job is outstanding.
    pub(crate) fn is_busy(&mut self, item: &str) -> Option<bool> {
        let item = item_of(item);
        match start(&mut self.client, self.alloc, Job::ReadArea { item }) {
            Ok(()) => Some(false),
            Err(StartFault { cause, job }) => {
                let back = HeldJob { job };
                Some(cause == StartCause::Pending && is_read_of(&back.job, &item))
            }
        }
    }

    /// Reports whether a poll has this outcome.
    pub(crate) fn polls(&mut self, comes_to: &str) -> Option<bool> {
        match self.polled() {
            Polled::Idle => Some(comes_to == "idle"),
            Polled::Pending => Some(comes_to == "pending"),
            Polled::Done(told) => {
                let done = Done { told };
                self.finish(1, &done.told);
                Some(is_connected(&done.told, comes_to))
            }
        }
    }

    /// The outcome of a poll over the pipes.
    fn polled(&mut self) -> Polled {
        let mut end = PipeEnd {
            pipes: &mut self.pipes,
            side: Side::Client,
        };
        polled(&mut self.client, &mut end)
    }

    /// Reports whether the server puts octets, at least one, into its pipe, which has room for all of them.
    pub(crate) fn puts(&mut self, octets: &str) -> Option<bool> {
        let octets = octets_of(self.alloc, octets)?;
        Some(put(&mut self.pipes, octets.as_slice()))
    }

    /// Reports whether the server takes all octets that wait, up to 128, and they are these.
    pub(crate) fn takes(&mut self, octets: &str) -> Option<bool> {
        let mut into = [0; 128];
        let count = take(&mut self.pipes, &mut into)?;
        Some(are(self.alloc, octets, into.get(..count)?))
    }
}

/// Reports whether the job is a read of this item.
fn is_read_of(job: &Job, item: &Item) -> bool {
    match job {
        Job::ReadArea { item: other } => other == item,
        _ => false,
    }
}

/// Reports whether the server's pipe takes all octets.
fn put(pipes: &mut Pipes, octets: &[u8]) -> bool {
    if octets.is_empty() {
        return false;
    }
    let mut end = PipeEnd {
        pipes,
        side: Side::Server,
    };
    match end.transmit(octets) {
        Sent::Bytes(count) => count == octets.len(),
        _ => false,
    }
}

/// The number of octets that the server takes.
fn take(pipes: &mut Pipes, into: &mut [u8; 128]) -> Option<usize> {
    let mut end = PipeEnd {
        pipes,
        side: Side::Server,
    };
    match end.receive(into) {
        Got::Bytes(count) => Some(count),
        Got::End | Got::NotYet | Got::Failed => None,
    }
}

/// Reports whether a connect is done with this code.
fn is_connected(told: &JobResult, code: &str) -> bool {
    match told.job {
        Job::Connect => hex_number(code) == told.code,
        _ => false,
    }
}

/// A client waits in two polls, and refuses a second job meanwhile.
const PATIENCE: &str = "\
jobs 1 2 8
patience 2
room 64
polls idle
starts connect
polls pending
busy FOUR
polls 02000000
closed
granted none
polls idle
waiting 22";

/// The pipes have less room than a request and an answer need.
const NARROW: &str = "\
jobs 1 2 8
room 16
starts connect
polls pending
takes 0300001611e00000000100c0010ac102
puts 0300001611d00001000100c0010ac102
polls pending
takes 0100c2020102
puts 0100c2020102 0300001b02f080320300
polls pending
takes 0300001902f080320100000001000800
puts 000001000800000000f000000@000@01
polls pending
takes 00f000000@000@01e0
puts e0
polls 0
granted 480";

/// A read in three parts. The first is answered before all requests are sent. These have 93 octets, and there is room
/// for 80.
const ALL_SENT: &str = "\
jobs 3
room 80
puts CONFIRM 0300001b02f080320300000001000800000000f000000300030040
starts connect
polls 0
takes CONNECT SETUP
puts 0300004702f0803203000000020002003200000401ff040170 11*46
starts read 84.1.02.102.0
polls pending
waiting 80
unread 71";

/// The image of function 5, of 38 octets, its announcement, the server's job that asks for it, its piece, the job that
/// closes its download, and its insertion, with their answers.
const DOWNLOAD: &str = "\
IMAGE 70700101050c000500000026 00*22 0002aabb
ANNOUNCES 0300003102f080320100000002002000001a00000000000000095f30433030303035500d31303030303338303030303032
ANNOUNCED 0300001402f0803203000000020001000000001a
ASKS 0300002302f080320100000001001200001b00000000000000095f3043303030303550
PIECE 0300003f02f0803203000000010002002a00001b00002600fb70700101050c000500000026 00*22 0002aabb
CLOSES 0300002302f080320100000002001200001c00000000000000095f3043303030303550
CLOSED 0300001402f0803203000000020001000000001c
INSERTS 0300002b02f080320100000003001a000028000000000000fd000a01003043303030303550055f494e5345";

/// Nothing goes out before the server asks.
const WAITS: &str = "\
jobs 1 2 8
puts CONFIRM GRANTED_64
starts connect
polls 0
takes CONNECT SETUP
starts download IMAGE
polls pending
takes ANNOUNCES
puts ANNOUNCED
polls pending
busy FOUR
waiting 0
puts ASKS
polls pending
takes PIECE
polls pending
waiting 0
puts CLOSES
polls pending
takes CLOSED INSERTS
granted 64";

/// The texts.
const FORMS: &[Form] = &[
    ("", PATIENCE, "patience"),
    ("", NARROW, "narrow"),
    ("", ALL_SENT, "all sent"),
    (DOWNLOAD, WAITS, "waits"),
];

/// The first row that doesn't hold. Only this function has the texts, so that its callers are cheap to prove.
fn unmet_row(alloc: Global) -> Option<Unmet> {
    unmet(alloc, FORMS)
}

/// A job goes on by polls, however little the pipes have room for.
#[test]
fn a_job_goes_on_by_polls(rt: HostRuntime) {
    all_forms_hold(&rt, unmet_row(rt.alloc()));
}
