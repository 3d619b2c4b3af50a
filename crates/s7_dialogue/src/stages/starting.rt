//! The first stage of a job.
ghost use Rattle.std.specs.Prelude.{◌≡◌, ◌≤◌, length, take, Some, None, true};
ghost use Rattle.std.specs.Option.{ForSome};
ghost use Rattle.s7_szl.specs.Joining.{most_joined};
ghost use Rattle.s7_split.specs.Groups.{cut_at};
ghost use Rattle.s7_dialogue.specs.declared.grant.Grant.{Grant};
ghost use Rattle.s7_dialogue.specs.declared.job.Job.TheVariants as job;
ghost use Rattle.s7_dialogue.specs.declared.stages.single.Ask.TheVariants as asked;
ghost use Rattle.s7_dialogue.specs.declared.stages.single.Single.{Single};
ghost use Rattle.s7_dialogue.specs.declared.stages.running.Stage.TheVariants as stage;
ghost use Rattle.s7_dialogue.specs.DataPlaces.{room_for_value};
ghost use Rattle.s7_dialogue.specs.Singles.{parts_bring};
ghost use Rattle.s7_dialogue.specs.Left.{groups_in, AreFew};
ghost use Rattle.s7_dialogue.specs.Stages.{IsGrant};
ghost use Rattle.s7_dialogue.specs.Starting.{AsksFirst, Starts};

use crate::codes::{GOOD, NOT_CONNECTED, TOO_MANY_ITEMS};
use crate::grant::{Grant, Leaves};
use crate::job::Job;
use crate::questions::checks::{
    check_image, check_item, check_items, check_moment, check_password, octet_count_of,
};
use crate::questions::left::{Grouped, Left, items_of};
use crate::questions::subject::Subject;
use crate::stages::asking::Asking;
use crate::stages::running::Stage;
use crate::stages::single::{Ask, Single};
use crate::transfers::data_block::DataBlock;
use crate::transfers::download::Pieces;
use crate::transfers::upload::MOST_UPLOADED;
use crate::transfers::user_data::MOST_JOINED;
use s7_clock::Control;
use s7_item::{Item, MOST_ITEMS};
use s7_split::{Groups, parts};

/// The number of octets of a piece's telegram besides the image: header, parameters and the head of the data.
const HEADS_OF_PIECE: u16 = 18;

/// The first stage of a job, and the room that its results need.
#[derive(Drop)]
pub(crate) struct Start {
    /// The first stage.
    pub(crate) stage: Stage,
    /// The number of octets that the job reads.
    pub(crate) octets: usize,
    /// The number of return codes that the job gives.
    pub(crate) codes: u8,
}

/// The start of a job on a client with this grant; without one the client isn't connected.
pub(crate) fn start_of(granted: Option<Grant>, job: &Job) -> Start
    requires { ForSome granted IsGrant }
    ensures { Starts job.now granted result.stage result.octets result.codes }
{
    match granted {
        None => start_unconnected(job),
        Some(granted) => start_connected(&granted, job),
    }
}

/// The start of a job on a client that isn't connected.
fn start_unconnected(job: &Job) -> Start
    ensures { Starts job.now None result.stage result.octets result.codes }
{
    match job {
        Job::Connect => at(Stage::Opening),
        _ => over(NOT_CONNECTED, Leaves::Disconnected),
    }
}

/// The start of a job on a connected client.
fn start_connected(granted: &Grant, job: &Job) -> Start
    requires { IsGrant granted.now }
    ensures { Starts job.now (Some granted.now) result.stage result.octets result.codes }
{
    match job {
        Job::Connect => over(GOOD, Leaves::AsItWas),
        Job::ReadArea { item } => read_area(granted, item),
        Job::WriteArea { item, octets } => write_area(granted, item, octets.as_slice()),
        Job::ReadMany { items } => read_many(granted, items.as_slice()),
        Job::WriteMany { items, octets } => {
            write_many(granted, items.as_slice(), octets.as_slice())
        }
        Job::List => asking_about(Subject::BlockCounts),
        Job::ListOf { .. } => asking_about(Subject::BlocksOfKind),
        Job::Info { .. } => asking_about(Subject::BlockHead),
        Job::Upload { .. } => asking_singly(Ask::Upload, MOST_UPLOADED),
        Job::Download { image } => download(granted, image.as_slice()),
        Job::Delete { kind, number } => controlling(Control::Delete {
            kind: *kind,
            number: *number,
        }),
        Job::DbGet { number } => asking_parts(granted, *number, None),
        Job::DbFill { number, value } => asking_parts(granted, *number, Some(*value)),
        Job::Szl { .. } => asking_about(Subject::StatusList),
        Job::ClockRead => asking_about(Subject::Clock),
        Job::ClockSet { moment } => set_clock(*moment),
        Job::Start => controlling(Control::Start),
        Job::ColdStart => controlling(Control::ColdStart),
        Job::Stop => controlling(Control::Stop),
        Job::Compress => controlling(Control::Compress),
        Job::CopyRam => controlling(Control::CopyRam),
        Job::Status => asking_about(Subject::RunState),
        Job::PasswordSet { text } => set_password(text.as_slice()),
        Job::PasswordClear => asking_about(Subject::PasswordClearing),
        Job::Disconnect => at(Stage::Leaving),
    }
}

/// The start of a job at this stage that reads nothing.
fn at(stage: Stage) -> Start
    ensures stage { result.stage ≡ stage }
    ensures octets { result.octets ≡ 0 }
    ensures codes { result.codes ≡ 0 }
{
    Start {
        stage,
        octets: 0,
        codes: 0,
    }
}

/// The start of a job that is over already.
fn over(code: u32, leaves: Leaves) -> Start
    ensures stage { result.stage ≡ stage.Over code leaves }
    ensures octets { result.octets ≡ 0 }
    ensures codes { result.codes ≡ 0 }
{
    at(Stage::Over { code, leaves })
}

/// The start of a job that asks these questions, and needs room for this number of octets and codes.
fn asking(granted: &Grant, left: Left, octets: usize, codes: u8) -> Start
    requires granted { IsGrant granted.now }
    requires few { AreFew left }
    ensures stage { AsksFirst result.stage granted.now.jobs left }
    ensures octets { result.octets ≡ octets }
    ensures codes { result.codes ≡ codes }
{
    Start {
        stage: Stage::Asking(Asking::new(usize::from(granted.jobs), left)),
        octets,
        codes,
    }
}

/// The start of a read of one item.
fn read_area(granted: &Grant, item: &Item) -> Start
    requires { IsGrant granted.now }
    ensures { Starts (job.ReadArea item.now) (Some granted.now) result.stage result.octets result.codes }
{
    let check = check_item(item, true);
    if check != GOOD {
        return over(check, Leaves::AsItWas);
    }
    let parts = Grouped::Parts(parts(item, granted.pdu, false));
    asking(granted, Left::Reads(parts), item.octet_count(), 0)
}

/// The start of a write of one item.
fn write_area(granted: &Grant, item: &Item, octets: &[u8]) -> Start
    requires { IsGrant granted.now }
    ensures { Starts (job.WriteArea item.now octets.now) (Some granted.now) result.stage result.octets result.codes }
{
    let check = check_item(item, octets.len() == item.octet_count());
    if check != GOOD {
        return over(check, Leaves::AsItWas);
    }
    let parts = Grouped::Parts(parts(item, granted.pdu, true));
    asking(granted, Left::Writes(parts), 0, 0)
}

/// The start of a read of several items.
fn read_many(granted: &Grant, items: &[Item]) -> Start
    requires { IsGrant granted.now }
    ensures { Starts (job.ReadMany items.now) (Some granted.now) result.stage result.octets result.codes }
{
    let mut groups = Groups::new();
    let check = check_items(items, true, granted.pdu, false, &mut groups);
    if check != GOOD {
        return over(check, Leaves::AsItWas);
    }
    let left = Left::Reads(grouped(items, &groups));
    asking(granted, left, octet_count_of(items), items.len() as u8)
}

/// The start of a write of several items.
fn write_many(granted: &Grant, items: &[Item], octets: &[u8]) -> Start
    requires { IsGrant granted.now }
    ensures { Starts (job.WriteMany items.now octets.now) (Some granted.now) result.stage result.octets result.codes }
{
    if items.len() > MOST_ITEMS {
        return over(TOO_MANY_ITEMS, Leaves::AsItWas);
    }
    let has_octets = octets.len() == octet_count_of(items);
    let mut groups = Groups::new();
    let check = check_items(items, has_octets, granted.pdu, true, &mut groups);
    if check != GOOD {
        return over(check, Leaves::AsItWas);
    }
    let left = Left::Writes(grouped(items, &groups));
    asking(granted, left, 0, items.len() as u8)
}

/// The start of a setting of the clock.
fn set_clock(moment: u64) -> Start
    ensures { (granted : Grant) → Starts (job.ClockSet moment) (Some granted) result.stage result.octets result.codes }
{
    let check = check_moment(moment);
    if check != GOOD {
        return over(check, Leaves::AsItWas);
    }
    asking_about(Subject::ClockSetting)
}

/// The start of a password.
fn set_password(text: &[u8]) -> Start
    ensures { (granted : Grant)
        → Starts (job.PasswordSet text.now) (Some granted) result.stage result.octets result.codes }
{
    let check = check_password(text);
    if check != GOOD {
        return over(check, Leaves::AsItWas);
    }
    asking_about(Subject::Password)
}

/// The start of a download.
fn download(granted: &Grant, image: &[u8]) -> Start
    requires { IsGrant granted.now }
    ensures { Starts (job.Download image.now) (Some granted.now) result.stage result.octets result.codes }
{
    let check = check_image(image);
    if check != GOOD {
        return over(check, Leaves::AsItWas);
    }
    let pieces = Pieces {
        room: granted.pdu - HEADS_OF_PIECE,
        len: image.len() as u32,
    };
    asking_singly(Ask::Announce(pieces), 0)
}

/// The start of a job that asks for this control.
fn controlling(control: Control) -> Start
    ensures stage { (s : Single) × (result.stage ≡ stage.Single s)
        × (s.ask ≡ asked.Control control) × (s.out ≡ None) × (s.len ≡ 0) }
    ensures octets { result.octets ≡ 0 }
    ensures codes { result.codes ≡ 0 }
{
    asking_singly(Ask::Control(control), 0)
}

/// The start of a job that asks for user data about this subject.
fn asking_about(subject: Subject) -> Start
    ensures stage { (s : Single) × (result.stage ≡ stage.Single s)
        × (s.ask ≡ asked.About subject) × (s.out ≡ None) × (s.len ≡ 0) }
    ensures octets { result.octets ≡ most_joined }
    ensures codes { result.codes ≡ 0 }
{
    asking_singly(Ask::About(subject), MOST_JOINED)
}

/// The start of a job that reads a whole data block, or fills it with a value.
fn asking_parts(granted: &Grant, number: u16, value: Option<u8>) -> Start
    requires { IsGrant granted.now }
    ensures stage { (s : Single) × (result.stage ≡ stage.Single s)
        × (s.ask ≡ asked.Head (record { number = number; pdu = granted.now.pdu; value = value }))
        × (s.out ≡ None) × (s.len ≡ 0) }
    ensures octets { result.octets ≡ room_for_value value }
    ensures codes { result.codes ≡ 0 }
{
    let block = DataBlock {
        number,
        pdu: granted.pdu,
        value,
    };
    asking_singly(Ask::Head(block), block.room())
}

/// The start of a job that asks one question at a time, beginning with this one, and needs room for this number of
/// octets.
fn asking_singly(ask: Ask, octets: usize) -> Start
    requires { parts_bring ask ≡ 0 }
    ensures stage { (s : Single) × (result.stage ≡ stage.Single s)
        × (s.ask ≡ ask) × (s.out ≡ None) × (s.len ≡ 0) }
    ensures octets { result.octets ≡ octets }
    ensures codes { result.codes ≡ 0 }
{
    Start {
        stage: Stage::Single(Single {
            ask,
            out: None,
            unput: 0,
            len: 0,
        }),
        octets,
        codes: 0,
    }
}

/// The groups of these items.
fn grouped(items: &[Item], groups: &Groups) -> Grouped
    requires { length items.now ≤ 20 }
    ensures { groups_in result ≡ cut_at 0 (take groups.now.count groups.now.ends) items.now }
{
    Grouped::Groups {
        items: items_of(items),
        groups: *groups,
        next: 0,
        from: 0,
    }
}
