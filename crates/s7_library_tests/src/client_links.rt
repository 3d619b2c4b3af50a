//! Tests of links that fail, or have nothing to give or no room, at each of their calls in turn.
//!
//! Each form is tried over several exchanges, which are what a client does after its connect. A call is numbered by the
//! calls before it. The number of octets that are written by then shows whether it receives or transmits: it transmits
//! if more are written at the next call. The end of each receive lies somewhere in a packet.
use crate::exchange::{Form, Unmet, unmet};
use crate::rows::all_forms_hold;
use std::alloc::Global;

/// A call fails and ends the job with this code, after this number of octets was written. The next job has no link. The
/// client connects on another link, where nothing of the first is left.
const FAILS: &str = "\
jobs JOBS
most MOST
pdu PDU
fates pass*$1 fail
gives CONFIRM GIVES
connect : 0
JOB : $2
begun $3 CONNECT SETUP SENT
JOB : 00010000
begun $3 CONNECT SETUP SENT
granted none
closed
gives CONFIRM GIVES
connect : 0
sent CONNECT SETUP
granted GRANTS
open";

/// At the same call the link has nothing to give, or no room, and the first poll that finds this ends the job.
const TIRES: &str = "\
jobs JOBS
most MOST
pdu PDU
patience 1
fates pass*$1 wait
gives CONFIRM GIVES
connect : 0
JOB : 02000000
begun $3 CONNECT SETUP SENT
JOB : 00010000
begun $3 CONNECT SETUP SENT
granted none
closed";

/// The job waits in one poll, and goes on as it does without a wait.
const WAITS: &str = "\
jobs JOBS
most MOST
pdu PDU
fates pass*$1 wait
gives CONFIRM GIVES
connect : 0
waited 0
JOB : RESULT
waited 1
sent CONNECT SETUP SENT
granted LEAVES
open";

/// The job makes no call after these.
const IS_DONE: &str = "\
jobs JOBS
most MOST
pdu PDU
fates CALLS fail
gives CONFIRM GIVES
connect : 0
JOB : RESULT
sent CONNECT SETUP SENT
granted LEAVES
open";

/// A connect waits.
const CONNECT_WAITS: &str = "\
jobs 1 2 8
most 20
fates pass*$1 wait
gives CONFIRM GRANTED
connect : 0
waited $2
sent CONNECT SETUP
granted 480
open";

/// The seven calls of a connect: two transmits, two receives, two transmits and a receive.
const CONNECT_CALLS: &str = "\
0 | 1
1 | 1
2 | 1
3 | 1
4 | 1
5 | 1
6 | 1
7 | 0";

/// A read after such a connect. Its request goes in two transmits.
const READ: &str = "\
JOBS 1 2 8
MOST 20
PDU 480
CALLS pass*10
GIVES GRANTED READ_ANSWER
JOB read FOUR
RESULT 0 : 11223344
SENT READ
GRANTS 480
LEAVES 480";

/// The calls of that read.
const READ_CALLS: &str = "\
7 | 00090000 | 47
8 | 00090000 | 67
9 | 000a0000 | 78";

/// A disconnect.
const DISCONNECT: &str = "\
JOBS 1 2 8
MOST 20
PDU 480
CALLS pass*8
GIVES GRANTED
JOB disconnect
RESULT 0
SENT DISCONNECT
GRANTS 480
LEAVES none";

/// The calls of a disconnect.
const DISCONNECT_CALLS: &str = "\
7 | 00090000 | 47";

/// An upload of data block 1. Its image of 56 octets comes in slices of 46 and 10.
const UPLOAD: &str = "\
JOBS 1 2 8
MOST 40
PDU 480
CALLS pass*12
GIVES GRANTED_64 STARTED SLICE_1 SLICE_2 ENDED
JOB upload 41 1
RESULT 0 : IMAGE
SENT STARTS ASKS_1 ASKS_2 ENDS
GRANTS 64
LEAVES 64
IMAGE 70700101050a000100000038 00*22 0014 202122232425262728292a2b2c2d2e2f30313233
STARTS 0300002302f080320100000002001200001d00000000000000095f3041303030303141
STARTED 0300002302f0803203000000020010000000001d000000000000070730303030303536
ASKS_1 0300001902f080320100000003000800001e00000000000007
SLICE_1 0300004702f0803203000000030002003200001e01002e00fb70700101050a000100000038 00*22 0014 20212223242526272829
ASKS_2 0300001902f080320100000004000800001e00000000000007
SLICE_2 0300002302f0803203000000040002000e00001e00000a00fb2a2b2c2d2e2f30313233
ENDS 0300001902f080320100000005000800001f00000000000007
ENDED 0300001402f0803203000000050001000000001f";

/// The calls of that upload.
const UPLOAD_CALLS: &str = "\
4 | 00090000 | 47
5 | 000a0000 | 82
6 | 00090000 | 82
7 | 000a0000 | 107
8 | 00090000 | 107
9 | 000a0000 | 132
10 | 00090000 | 132
11 | 000a0000 | 157";

/// A download of function 5, in pieces of 46 octets and one, for which the server asks. Its insertion comes after it.
const DOWNLOAD: &str = "\
JOBS 1 2 8
MOST 35
PDU 480
CALLS pass*16
GIVES GRANTED_64 ANNOUNCED ASKS_1 ASKS_2 CLOSES INSERTED
JOB download 70700101050c00050000002f 00*22 000b 0-11
RESULT 0
SENT ANNOUNCES PIECE_1 PIECE_2 CLOSED INSERTS
GRANTS 64
LEAVES 64
ANNOUNCES 0300003102f080320100000002002000001a00000000000000095f30433030303035500d31303030303437303030303131
ANNOUNCED 0300001402f0803203000000020001000000001a
ASKS_1 0300002302f080320100000001001200001b00000000000000095f3043303030303550
PIECE_1 0300004702f0803203000000010002003200001b01002e00fb70700101050c00050000002f 00*22 000b 0-10
ASKS_2 0300002302f080320100000002001200001b00000000000000095f3043303030303550
PIECE_2 0300001a02f0803203000000020002000500001b00000100fb0a
CLOSES 0300002302f080320100000003001200001c00000000000000095f3043303030303550
CLOSED 0300001402f0803203000000030001000000001c
INSERTS 0300002b02f080320100000003001a000028000000000000fd000a01003043303030303550055f494e5345
INSERTED 0300001502f0803203000000030002000000002800";

/// The calls of that download. The announcement goes in two transmits, and the first piece in three. The answer that
/// closes the download and the insertion go in two together.
const DOWNLOAD_CALLS: &str = "\
4 | 00090000 | 47
5 | 00090000 | 82
6 | 000a0000 | 96
7 | 00090000 | 96
8 | 00090000 | 131
9 | 00090000 | 166
10 | 000a0000 | 167
11 | 00090000 | 167
12 | 000a0000 | 193
13 | 00090000 | 193
14 | 00090000 | 228
15 | 000a0000 | 256";

/// The list of the data blocks, in slices of 38, 38 and 4 octets.
const LIST: &str = "\
JOBS 1 2 8
MOST 40
PDU 480
CALLS pass*11
GIVES GRANTED_64 SLICE_1 SLICE_2 SLICE_3
JOB listof 41
RESULT 0 : 0-80
SENT ASKS_1 ASKS_2 ASKS_3
GRANTS 64
LEAVES 64
ASKS_1 0300001f02f080320700000002000800060001120411430200ff0900023041
SLICE_1 0300004702f080320700000002000c002a000112081283020700010000ff090026 0-38
ASKS_2 0300002102f080320700000003000c00040001120812430207000000000a000000
SLICE_2 0300004702f080320700000003000c002a000112081283020700010000ff090026 38-76
ASKS_3 0300002102f080320700000004000c00040001120812430207000000000a000000
SLICE_3 0300002502f080320700000004000c0008000112081283020700000000ff090004 76-80";

/// The calls of that list.
const LIST_CALLS: &str = "\
4 | 00090000 | 47
5 | 000a0000 | 78
6 | 00090000 | 78
7 | 000a0000 | 111
8 | 000a0000 | 111
9 | 00090000 | 111
10 | 000a0000 | 144";

/// A read in five parts of 46 octets. Four of them are in flight at once, and the fifth goes out after the answer to
/// the third.
const FLIGHT: &str = "\
JOBS 4
MOST 80
PDU 480
CALLS pass*11
GIVES GRANTED_64 THIRD FIRST FIFTH SECOND FOURTH
JOB read 84.1.02.230.0
RESULT 0 : 11*46 22*46 33*46 44*46 55*46
SENT ASKS_1 ASKS_2 ASKS_3 ASKS_4 ASKS_5
GRANTS 64
LEAVES 64
ASKS_1 0300001f02f080320100000002000e00000401120a1002002e000184000000
ASKS_2 0300001f02f080320100000003000e00000401120a1002002e000184000170
ASKS_3 0300001f02f080320100000004000e00000401120a1002002e0001840002e0
ASKS_4 0300001f02f080320100000005000e00000401120a1002002e000184000450
ASKS_5 0300001f02f080320100000006000e00000401120a1002002e0001840005c0
FIRST 0300004702f0803203000000020002003200000401ff040170 11*46
SECOND 0300004702f0803203000000030002003200000401ff040170 22*46
THIRD 0300004702f0803203000000040002003200000401ff040170 33*46
FOURTH 0300004702f0803203000000050002003200000401ff040170 44*46
FIFTH 0300004702f0803203000000060002003200000401ff040170 55*46";

/// The calls of that read. Its first four requests, of 124 octets, go in two transmits together.
const FLIGHT_CALLS: &str = "\
3 | 00090000 | 47
4 | 00090000 | 127
5 | 000a0000 | 171
6 | 00090000 | 171
7 | 000a0000 | 202
8 | 000a0000 | 202
9 | 000a0000 | 202
10 | 000a0000 | 202";

/// A read in eight parts of 1,902 octets at the greatest PDU. All its answers are there from the start. The link gives
/// 22 octets, 27, and eight times 1,934, which is 15,521 in all, and would move them in one call. The client takes
/// 8,192 of them at the connect, and 7,329 after its requests.
const MUCH: &str = "\
JOBS 8
MOST 16384
PDU 1920
CALLS pass*5
GIVES GRANTED FIRST SECOND THIRD FOURTH FIFTH SIXTH SEVENTH EIGHTH
JOB read 84.1.02.15216.0
RESULT 0 : 0-15216
SENT ASKS_1 ASKS_2 ASKS_3 ASKS_4 ASKS_5 ASKS_6 ASKS_7 ASKS_8
GRANTS 1920
LEAVES 1920
SETUP 0300001902f08032010000000100080000f000000@000@0780
GRANTED 0300001b02f080320300000001000800000000f000000@000@0780
ASKS_1 0300001f02f080320100000002000e00000401120a1002076e000184000000
ASKS_2 0300001f02f080320100000003000e00000401120a1002076e000184003b70
ASKS_3 0300001f02f080320100000004000e00000401120a1002076e0001840076e0
ASKS_4 0300001f02f080320100000005000e00000401120a1002076e00018400b250
ASKS_5 0300001f02f080320100000006000e00000401120a1002076e00018400edc0
ASKS_6 0300001f02f080320100000007000e00000401120a1002076e000184012930
ASKS_7 0300001f02f080320100000008000e00000401120a1002076e0001840164a0
ASKS_8 0300001f02f080320100000009000e00000401120a1002076e00018401a010
FIRST 0300040402f0003203000000020002077200000401ff043b70 0-1003 0300038a02f080 1003-1902
SECOND 0300040402f0003203000000030002077200000401ff043b70 1902-2905 0300038a02f080 2905-3804
THIRD 0300040402f0003203000000040002077200000401ff043b70 3804-4807 0300038a02f080 4807-5706
FOURTH 0300040402f0003203000000050002077200000401ff043b70 5706-6709 0300038a02f080 6709-7608
FIFTH 0300040402f0003203000000060002077200000401ff043b70 7608-8611 0300038a02f080 8611-9510
SIXTH 0300040402f0003203000000070002077200000401ff043b70 9510-10513 0300038a02f080 10513-11412
SEVENTH 0300040402f0003203000000080002077200000401ff043b70 11412-12415 0300038a02f080 12415-13314
EIGHTH 0300040402f0003203000000090002077200000401ff043b70 13314-14317 0300038a02f080 14317-15216";

/// The calls of that read. Its eight requests go in one transmit.
const MUCH_CALLS: &str = "\
3 | 00090000 | 47
4 | 000a0000 | 295";

/// An exchange, its calls, and the name of its row in the form in which it is done.
type Tried = (&'static str, &'static str, &'static str);

/// The exchanges.
const EXCHANGES: &[Tried] = &[
    (READ, READ_CALLS, "read is done"),
    (DISCONNECT, DISCONNECT_CALLS, "disconnect is done"),
    (UPLOAD, UPLOAD_CALLS, "upload is done"),
    (DOWNLOAD, DOWNLOAD_CALLS, "download is done"),
    (LIST, LIST_CALLS, "list is done"),
    (FLIGHT, FLIGHT_CALLS, "flight is done"),
    (MUCH, MUCH_CALLS, "much is done"),
];

/// The first row of an exchange that doesn't hold in one of the four forms.
fn unmet_in_forms(alloc: Global, tried: &Tried) -> Option<Unmet> {
    let (names, calls, name) = *tried;
    unmet(
        alloc,
        &[
            (names, IS_DONE, name),
            (names, FAILS, calls),
            (names, TIRES, calls),
            (names, WAITS, calls),
        ],
    )
}

/// The first row of an exchange that doesn't hold.
fn unmet_exchange(alloc: Global, all: &[Tried]) -> Option<Unmet> {
    for tried in all {
        let unmet = unmet_in_forms(alloc, tried);
        if unmet.is_some() {
            return unmet;
        }
    }
    None
}

/// The connect.
const CONNECTS: &[Form] = &[("", CONNECT_WAITS, CONNECT_CALLS)];

/// The first row of a connect that doesn't hold. It stands in a function of its own, so that its callers are cheap to
/// prove.
fn unmet_connect(alloc: Global) -> Option<Unmet> {
    unmet(alloc, CONNECTS)
}

/// The first row that doesn't hold. Only this function has the exchanges, so that its callers are cheap to prove.
fn unmet_row(alloc: Global) -> Option<Unmet> {
    match unmet_exchange(alloc, EXCHANGES) {
        Some(row) => Some(row),
        None => unmet_connect(alloc),
    }
}

/// Links fail and wait at each call of each exchange.
#[test]
fn links_fail_and_wait_at_each_call(rt: HostRuntime) {
    all_forms_hold(&rt, unmet_row(rt.alloc()));
}
