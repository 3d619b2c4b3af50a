//! The arguments of the command `rig`.
ghost use Rattle.std.specs.Prelude.{◌≤◌, ◌<◌, ◌*◌, All, vec_len};
ghost use Rattle.s7_args.specs.Tool.{client_count};

/// The arguments of `rig`, which runs scripts together on one set of areas.
#[derive(Debug, PartialEq, Eq, Drop)]
pub struct RigWords<'a> {
    /// The path of the area file, or an inline data block: any text.
    pub areas: &'a str,
    /// The paths of the scripts, 1 to 1,024 of them, in order: any texts.
    pub scripts: Vec<&'a str>,
    /// `--turns`, the actors of the first turns, in order. Each script has two actors, and so has the watcher, if there
    /// is one. The actors are numbered from 0. The default is no turn.
    pub turns: Vec<u32>,
    /// `--seed`, the seed of the turns after those, 0 to 4,294,967,295; the default is 0.
    pub seed: u32,
    /// `--steps`, the number of turns that are drawn from the seed, 0 to 1,000,000; the default is 0.
    pub steps: u32,
    /// `--pdu`, the PDU length in octets to ask for, 64 to 1,920; the default is 480.
    pub pdu: u16,
    /// `--journal`, the greatest number of entries in the journal, 1 to 262,144; the default is 65,536.
    pub journal: u64,
    /// `--jobs`, the number of parallel jobs to ask for, 1 to 8; the default is 1.
    pub jobs: u16,
    /// `--tags`, the path of the tag file whose tags the scripts may name: any text; the default is none.
    pub tags: Option<&'a str>,
    /// `--watch`, the path of the tag file whose tags are watched: any text; the default is none.
    pub watch: Option<&'a str>,
    /// `--rounds`, the number of rounds in which these tags are read, 1 to 10,000; the default is 1.
    pub rounds: u32,
    ghost least_scripts: { 1 ≤ vec_len scripts },
    ghost most_scripts: { vec_len scripts ≤ 1024 },
    ghost actors: { All (λ turn. turn < 2 * client_count (vec_len scripts) watch) turns.items },
    ghost most_steps: { steps ≤ 1000000 },
    ghost least_pdu: { 64 ≤ pdu },
    ghost most_pdu: { pdu ≤ 1920 },
    ghost least_journal: { 1 ≤ journal },
    ghost most_journal: { journal ≤ 262144 },
    ghost least_jobs: { 1 ≤ jobs },
    ghost most_jobs: { jobs ≤ 8 },
    ghost least_rounds: { 1 ≤ rounds },
    ghost most_rounds: { rounds ≤ 10000 },
}
