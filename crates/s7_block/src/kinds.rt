//! The codes of the kinds of blocks.
ghost use Rattle.std.specs.Prelude.{◌≡◌, is_some};
ghost use Rattle.s7_block.specs.Kinds.{is_stored_kind, head_code};

/// Organization blocks.
pub const OB: u8 = 0x38;

/// Data blocks.
pub const DB: u8 = 0x41;

/// System data blocks.
pub const SDB: u8 = 0x42;

/// Functions.
pub const FC: u8 = 0x43;

/// System functions.
pub const SFC: u8 = 0x44;

/// Function blocks.
pub const FB: u8 = 0x45;

/// System function blocks.
pub const SFB: u8 = 0x46;

/// Whether a store keeps blocks of this kind: organization blocks, functions and function blocks.
pub fn is_stored_kind(kind: u8) -> bool
    ensures { result ≡ is_stored_kind kind }
{
    kind == OB || kind == FC || kind == FB
}

/// Whether there are blocks of this kind.
pub fn is_kind(kind: u8) -> bool
    ensures { result ≡ is_some (head_code kind) }
{
    head_code(kind).is_some()
}

/// The code that a head has for the kind. `None` exactly if there is no such kind.
pub(crate) fn head_code(kind: u8) -> Option<u8>
    ensures { result ≡ head_code kind }
{
    match kind {
        OB => Some(0x08),
        DB => Some(0x0A),
        SDB => Some(0x0B),
        FC => Some(0x0C),
        SFC => Some(0x0D),
        FB => Some(0x0E),
        SFB => Some(0x0F),
        _ => None,
    }
}
