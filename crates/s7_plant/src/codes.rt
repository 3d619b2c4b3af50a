//! The codes in answers to controls and in refusals: functions, statuses and error words (Snap7 1.4 reference manual,
//! the control functions from `Cli_PlcHotStart` on, `Cli_ReadSZL`, and the block functions from `Cli_ListBlocks` on);
//! and the codes of events (`Srv_SetMask`).

/// The function of a start, a compression, a copy of the memory, an insertion and a deletion.
pub const SERVICE_FUNCTION: u8 = 0x28;

/// The function of a stop.
pub const STOP_FUNCTION: u8 = 0x29;

/// The status of a control that was carried out.
pub const DONE: u8 = 0x00;

/// The status of a start if the plant runs already.
pub const RUNS_ALREADY: u8 = 0x02;

/// The status of a stop if the plant is stopped already.
pub const STOPPED_ALREADY: u8 = 0x07;

/// The function of the start of an upload.
pub const UPLOAD_FUNCTION: u8 = 0x1D;

/// The octet before a kind of blocks.
pub const KIND_MARK: u8 = 0x30;

/// The error word of a request that needs a right, on a link that has none.
pub const NO_RIGHT: u16 = 0xD241;

/// The error word of a request for a block that doesn't exist.
pub const NO_BLOCK: u16 = 0xD209;

/// The error word if there is no room: for one more block, or for a block's image in a reply.
pub const NO_ROOM: u16 = 0x8F04;

/// The error word of a read of a status list that doesn't exist.
pub const NO_LIST: u16 = 0xD401;

/// The event code of a read.
pub const READS: u32 = 0x0002_0000;

/// The event code of a write.
pub const WRITES: u32 = 0x0004_0000;

/// The event code of a read of a status list.
pub const STATUS_LISTS: u32 = 0x0010_0000;

/// The event code of a read or a set of the clock.
pub const CLOCK: u32 = 0x0020_0000;

/// The event code of the start of an upload.
pub const UPLOADS: u32 = 0x0040_0000;

/// The event code of a block that is stored.
pub const DOWNLOADS: u32 = 0x0080_0000;

/// The event code of a question about blocks: their counts, a list or a head.
pub const DIRECTORY: u32 = 0x0100_0000;

/// The event code of a start, a stop, a compression or a copy of the memory, and of the deletion of a block.
pub const CONTROL: u32 = 0x0400_0000;
