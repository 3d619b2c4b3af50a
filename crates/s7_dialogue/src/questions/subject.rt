//! The subjects of user data.
ghost use Rattle.std.specs.Prelude.{◌≡◌};

/// What a telegram of user data asks for.
#[derive(Clone, Copy, Debug, PartialEq, Eq)]
pub(crate) enum Subject {
    /// The status list of an id and an index.
    StatusList,
    /// The status list that says whether the controller runs.
    RunState,
    /// The number of blocks of each kind.
    BlockCounts,
    /// The blocks of a kind.
    BlocksOfKind,
    /// The head of a block.
    BlockHead,
    /// The head of a data block that is to be read or filled whole.
    DataHead,
    /// The time of the clock.
    Clock,
    /// The setting of the clock.
    ClockSetting,
    /// A password, which gives a right.
    Password,
    /// Giving up the right of a password.
    PasswordClearing,
}

impl Subject {
    ghost use Rattle.s7_dialogue.specs.UserData.{group_of, subfunction_of, comes_in_pieces, lead_of};

    /// The group of a request: 43 for blocks, 44 for status lists, 45 for security, 47 for the clock.
    pub(crate) fn group(self) -> u8
        ensures { result ≡ group_of self }
    {
        match self {
            Subject::BlockCounts | Subject::BlocksOfKind | Subject::BlockHead | Subject::DataHead =>
                0x43,
            Subject::StatusList | Subject::RunState => 0x44,
            Subject::Password | Subject::PasswordClearing => 0x45,
            Subject::Clock | Subject::ClockSetting => 0x47,
        }
    }

    /// The subfunction.
    pub(crate) fn subfunction(self) -> u8
        ensures { result ≡ subfunction_of self }
    {
        match self {
            Subject::StatusList
            | Subject::RunState
            | Subject::BlockCounts
            | Subject::Clock
            | Subject::Password => 0x01,
            Subject::BlocksOfKind | Subject::ClockSetting | Subject::PasswordClearing => 0x02,
            Subject::BlockHead | Subject::DataHead => 0x03,
        }
    }

    /// Whether an answer may be longer than one telegram.
    pub(crate) fn comes_in_pieces(self) -> bool
        ensures { result ≡ comes_in_pieces self }
    {
        matches!(
            self,
            Subject::StatusList
                | Subject::RunState
                | Subject::BlockCounts
                | Subject::BlocksOfKind
                | Subject::BlockHead
                | Subject::DataHead
        )
    }

    /// The number of octets of a whole answer that come before the octets asked for.
    pub(crate) fn lead(self) -> usize
        ensures { result ≡ lead_of self }
    {
        match self {
            Subject::BlockHead | Subject::DataHead => 4,
            _ => 0,
        }
    }
}
