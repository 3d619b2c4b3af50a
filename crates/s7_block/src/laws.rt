//! Laws of heads, of names, of stores, of slices, and of images that are sent in pieces. They do nothing at run
//! time.
ghost use Rattle.s7_block.specs.Laws.{HeadsAreRead, OneNameChanges, PiecesAreJoined, SlicesJoin};
ghost use Rattle.s7_block.specs.Names.{NamesAreRead};

/// A law: the octets of a head are read as that head, whatever octets follow them.
pub fn heads_are_read()
    ensures { HeadsAreRead }
{}

/// A law: a number that is written in enough digits is read as that number. The octets of a name are read as that
/// name, if the location asked for is the one written.
pub fn names_are_read()
    ensures { NamesAreRead }
{}

/// A law: a block that was stored is found under its name, and a deleted block is gone. No other block changes.
pub fn one_name_changes()
    ensures { OneNameChanges }
{}

/// A law: the slices of an upload join to the beginning of the image, whatever room each slice had; once their rooms
/// suffice, they join to the whole image.
pub fn slices_join()
    ensures { SlicesJoin }
{}

/// A law: an image that is awaited is whole exactly if the pieces received are a whole image. That means: further
/// pieces follow each but the last, none of those is empty, and all join to an image of the stated length, within
/// the room.
pub fn pieces_are_joined()
    ensures { PiecesAreJoined }
{}
