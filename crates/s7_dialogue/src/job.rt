//! The jobs of a client, and their results.

use crate::ItemList;
use s7_item::Item;
use s7_outer::Octets;

/// A job for a client.
#[derive(Debug, Drop)]
pub enum Job {
    /// Connects and negotiates; does nothing on a connected client.
    Connect,
    /// Reads an item, in as many telegrams as it takes.
    ReadArea { item: Item },
    /// Writes an item, in as many telegrams as it takes. If a part is refused, other parts may have been written,
    /// also later ones that were in flight.
    WriteArea { item: Item, octets: Octets },
    /// Reads at most twenty items, in as few telegrams as their order allows.
    ReadMany { items: ItemList },
    /// Writes at most twenty items; `octets` are the octets of all of them joined.
    WriteMany { items: ItemList, octets: Octets },
    /// Counts the blocks of each kind.
    List,
    /// Lists the blocks of a kind: 38 OB, 41 DB, 42 SDB, 43 FC, 44 SFC, 45 FB, 46 SFB. Any other kind is sent too,
    /// and the server refuses it.
    ListOf { kind: u8 },
    /// Reads the head of the block of this kind and number, which may have any values.
    Info { kind: u8, number: u16 },
    /// Reads the image of the block of this kind and number, which may have any values: its head, and the octets
    /// after it.
    Upload { kind: u8, number: u16 },
    /// Loads the block with this image into the controller, under the kind and the number in its head, and inserts
    /// it there. The image has 36 to 65,536 octets, and its head states its length. OB, FC and FB can be inserted.
    Download { image: Octets },
    /// Deletes the block of this kind and number, which may have any values. OB, FC and FB can be deleted.
    Delete { kind: u8, number: u16 },
    /// Reads a whole data block. The server states its length, from 1 to 2,097,152 octets.
    DbGet { number: u16 },
    /// Fills a whole data block with a value. If a part is refused, the parts before it were written.
    DbFill { number: u16, value: u8 },
    /// Reads the status list (SZL) of this id and index.
    Szl { id: u16, index: u16 },
    /// Reads the server's clock.
    ClockRead,
    /// Sets the server's clock to this time, in milliseconds since 1970, from 631,152,000,000 to 3,786,911,999,999:
    /// from 1990 to the end of 2089.
    ClockSet { moment: u64 },
    /// Makes the controller run (hot start).
    Start,
    /// Makes the controller run by a cold start.
    ColdStart,
    /// Stops the controller.
    Stop,
    /// Makes the controller compress its memory.
    Compress,
    /// Makes the controller copy its RAM to its ROM.
    CopyRam,
    /// Reads whether the controller runs: the status list 0424.
    Status,
    /// Sends the password of the link, of 1 to 8 octets.
    PasswordSet { text: Octets },
    /// Gives up the right that a password gave to the link.
    PasswordClear,
    /// Transmits a disconnect request.
    Disconnect,
}

/// The result of a job.
#[derive(Debug, Drop)]
pub struct JobResult {
    /// The job.
    pub job: Job,
    /// 0, or an error number: one of the constants of the module `codes`.
    pub code: u32,
    /// The octets that were read; none if the code isn't 0. For several items they are those of each item that was
    /// read, joined. For `List` they are `30`, kind and count (2 octets) for each of the seven kinds. For `ListOf`
    /// they are number (2 octets), flags and language of each block, by rising numbers. For the other jobs they are
    /// the 36 octets of a head, the image of a block, the octets of a data block, the image of a status list (also
    /// for `Status`), or the ten octets of the clock that was read.
    pub octets: Octets,
    /// The return codes of the items of `ReadMany` and `WriteMany`, in the first `count` elements; the others are
    /// 0.
    pub codes: [u8; 20],
    /// The number of return codes; 0 for other jobs, and if the code isn't 0.
    pub count: u8,
    /// The message that isn't an answer, if the code is 00800000; else no octets.
    pub carried: Octets,
}
