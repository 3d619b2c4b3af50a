//! The arguments of the relay.
ghost use Rattle.std.specs.Prelude.{◌≤◌};

/// The arguments of the relay, which serves windows on the areas of a controller.
#[derive(Clone, Copy, Debug, PartialEq, Eq)]
pub struct RelayWords<'a> {
    /// The path of the windows file: any text.
    pub windows: &'a str,
    /// `--host`, the name or address of the controller: any text; the default is `127.0.0.1`.
    pub host: &'a str,
    /// `--port`, the TCP port of the controller, 1 to 65,535; the default is 102.
    pub port: u16,
    /// `--polls`, the number of polls that find the controller's link not ready after which a job times out, 1 to
    /// 4,294,967,295; the default is 50.
    pub polls: u32,
    /// `--journal`, the greatest number of telegrams that are kept, 1 to 262,144; the default is 65,536.
    pub journal: u64,
    ghost least_port: { 1 ≤ port },
    ghost least_polls: { 1 ≤ polls },
    ghost least_journal: { 1 ≤ journal },
    ghost most_journal: { journal ≤ 262144 },
}
