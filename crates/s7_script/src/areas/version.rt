//! The versions of area files.

/// The version of an area file.
#[derive(Clone, Copy, Debug, PartialEq, Eq)]
pub(crate) enum Version {
    /// Octets are written in hexadecimal digits only.
    One,
    /// Octets may be written in runs, too.
    Two,
}
