//! The arguments of the commands `pipe` and `serve` that both have.
ghost use Rattle.std.specs.Prelude.{◌≤◌};

/// What a command asks to be served: the word that names the areas; the path to which they are saved, if it is given;
/// the greatest number of entries in the journal, from 1 to 262,144; and the number of entries after which the areas
/// are printed in the end, if it is given.
#[derive(Clone, Copy)]
pub(crate) struct Asked<'a> {
    pub areas: &'a str,
    pub save: Option<&'a str>,
    pub journal: u64,
    pub at: Option<u64>,
    pub ghost some: { 1 ≤ journal },
    pub ghost few: { journal ≤ 262144 },
}
