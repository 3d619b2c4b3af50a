//! Tests of the lines of results that no run of the tool has: the greatest number of a line, codes that no job ends
//! with, and jobs that succeed without octets.
ghost use Rattle.std.specs.Prelude.{◌≡◌, true};
ghost use Rattle.s7_script.specs.Printing.{IsPrintable};

use crate::asks::job_of;
use crate::held::Done;
use crate::rows::all_hold;
use crate::words::octets_of;
use s7_client::{Job, JobResult};
use s7_outer::Octets;
use s7_script::print_result;
use std::alloc::Global;

/// The number of a line, the code, the job, its octets, and the line that is printed.
type Row = (u32, u32, &'static str, &'static str, &'static str);

/// The results.
const PRINTED: &[Row] = &[
    (
        4_294_967_295,
        0,
        "read 84.1.02.4.0",
        "11223aff",
        "4294967295 read 00000000 11223aff\n",
    ),
    (12, 0, "read 84.1.02.4.0", "", "12 read 00000000 -\n"),
    (
        10,
        0x0000_000A,
        "write 84.1.02.1.0 = 09",
        "",
        "10 write 0000000A -\n",
    ),
    (
        4,
        0xFEDC_BA98,
        "disconnect",
        "",
        "4 disconnect FEDCBA98 -\n",
    ),
    (5, 0, "szl 0011 0", "", "5 szl 00000000 -\n"),
    (9, 1, "clock", "", "9 clock 00000001 -\n"),
    (9, 1, "status", "", "9 status 00000001 -\n"),
];

/// Reports whether there are no return codes, and the job failed or is one whose octets are printed as they are.
fn is_printable(done: &JobResult) -> bool
    ensures { result ≡ true → IsPrintable done.now }
{
    if done.count != 0 {
        return false;
    }
    match &done.job {
        Job::ReadArea { .. } | Job::Szl { .. } => true,
        _ => done.code != 0,
    }
}

/// The result of a job, with its code and octets.
pub(crate) fn done_of(alloc: Global, job: Job, code: u32, octets: Vec<u8>) -> Done {
    let told = JobResult {
        job,
        code,
        octets: Octets::of_vec(octets),
        codes: [0; 20],
        count: 0,
        carried: Octets::of_vec(Vec::new(alloc)),
    };
    Done { told }
}

/// The line that is printed, if the result can be printed.
fn text_of(alloc: Global, line: u32, done: &JobResult) -> Option<Octets> {
    if !is_printable(done) {
        return None;
    }
    print_result(alloc, line, done).ok()
}

/// Reports whether this line is printed.
fn is_printed(alloc: Global, line: u32, done: &JobResult, wanted: &str) -> Option<bool> {
    Some(text_of(alloc, line, done)?.as_slice() == wanted.as_bytes())
}

/// Reports whether the line of a row is printed.
fn prints(alloc: Global, row: &Row) -> Option<bool> {
    let (line, code, job, octets, wanted) = *row;
    let octets = octets_of(alloc, octets)?;
    let done = done_of(alloc, job_of(alloc, job)?, code, octets);
    is_printed(alloc, line, &done.told, wanted)
}

/// The number of the first row whose line isn't printed.
fn unmet(alloc: Global, rows: &[Row]) -> Option<usize> {
    for (number, row) in rows.iter().enumerate() {
        if prints(alloc, row) != Some(true) {
            return Some(number);
        }
    }
    None
}

/// The lines of the rows are printed.
#[test]
fn results_are_printed(rt: HostRuntime) {
    all_hold(&rt, unmet(rt.alloc(), PRINTED));
}
