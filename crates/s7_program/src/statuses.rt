//! The exit statuses that the programs have in common.

/// The status if all went well.
pub const DONE: u8 = 0;

/// The status if the words are no command line of the program.
pub const USAGE: u8 = 1;

/// The status if what the words name can't be read: areas, windows, tags, a script or a sends file.
pub const REFUSED: u8 = 2;

/// The status if a file failed.
pub const FILE: u8 = 3;

/// The status if the outside wasn't reached: the door can't listen, or failed before a link came, or the dial failed.
pub const UNREACHED: u8 = 4;

/// The status if the output failed.
pub const OUTPUT: u8 = 5;

/// The status if everything was done, and not all of it went well.
pub const JOBS: u8 = 6;

/// The status if memory ran out.
pub const MEMORY: u8 = 9;
