//! The arguments of the command `partner`.
ghost use Rattle.std.specs.Prelude.{◌≤◌};

/// The arguments of `partner`: what the partners send, and over what.
#[derive(Clone, Copy, Debug, PartialEq, Eq)]
pub struct PartnerWords<'a> {
    /// The path of the active partner's sends file: any text.
    pub one: &'a str,
    /// The path of the passive partner's sends file: any text. Without it, the passive partner is at the other end of a
    /// link.
    pub other: Option<&'a str>,
    /// `--host`, the name or address to dial: any text; the default is `127.0.0.1`.
    pub host: &'a str,
    /// `--port`, the TCP port to dial, 1 to 65,535; the default is 102.
    pub port: u16,
    /// `--seed`, the seed of the first turns, 0 to 4,294,967,295; the default is 0.
    pub seed: u32,
    /// `--steps`, the number of turns that are drawn from the seed, 0 to 1,000,000; the default is 0.
    pub steps: u32,
    ghost least_port: { 1 ≤ port },
    ghost most_steps: { steps ≤ 1000000 },
}
