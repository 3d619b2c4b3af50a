//! The arguments of the command `run`.
ghost use Rattle.std.specs.Prelude.{◌≤◌};

/// The arguments of `run`, which runs a script against a controller.
#[derive(Clone, Copy, Debug, PartialEq, Eq)]
pub struct RunWords<'a> {
    /// The path of the script: any text.
    pub script: &'a str,
    /// `--host`, the name or address of the controller: any text; the default is `127.0.0.1`.
    pub host: &'a str,
    /// `--port`, the TCP port of the controller, 1 to 65,535; the default is 102.
    pub port: u16,
    /// `--type`, the type of the connection, 1 to 3; the default is 1.
    pub kind: u8,
    /// `--rack`, the rack of the controller, 0 to 7; the default is 0.
    pub rack: u8,
    /// `--slot`, the slot of the controller, 0 to 31; the default is 2.
    pub slot: u8,
    /// `--pdu`, the PDU length in octets to ask for, 64 to 1,920; the default is 480.
    pub pdu: u16,
    /// `--polls`, the number of polls that find the link not ready after which a job times out, 1 to 4,294,967,295; the
    /// default is 50.
    pub polls: u32,
    /// `--jobs`, the number of parallel jobs to ask for, 1 to 8; the default is 1.
    pub jobs: u16,
    /// `--tags`, the path of the tag file whose tags the script may name: any text; the default is none.
    pub tags: Option<&'a str>,
    ghost least_port: { 1 ≤ port },
    ghost least_kind: { 1 ≤ kind },
    ghost most_kind: { kind ≤ 3 },
    ghost most_rack: { rack ≤ 7 },
    ghost most_slot: { slot ≤ 31 },
    ghost least_pdu: { 64 ≤ pdu },
    ghost most_pdu: { pdu ≤ 1920 },
    ghost least_polls: { 1 ≤ polls },
    ghost least_jobs: { 1 ≤ jobs },
    ghost most_jobs: { jobs ≤ 8 },
}
