//! The return codes of at most twenty items.
ghost use Rattle.std.specs.Prelude.{◌≡◌, ℕ, ◌≤◌, length, take, slice_index, slice_set, replicate};

use std::marker::Model;

/// Return codes in order, at most twenty. Contracts see them as a list.
#[derive(Drop)]
pub(crate) struct Codes {
    codes: [u8; 20],
    len: u8,
}

impl Model for Codes {
    ghost use Rattle.std.specs.Prelude.{◌≡◌, ◌≤◌, ℕ, List, take, slice_index};

    ghost Value = { List ℕ };

    ghost view = { λ c. take c.len c.codes };

    ghost invariant = { λ c. (c.len ≤ 20) × ((k : ℕ) → c.len ≤ k → slice_index c.codes k ≡ 0) };
}

impl Codes {
    /// A list of `len` codes, all 00.
    pub(crate) fn new(len: u8) -> Codes
        requires { len ≤ 20 }
        ensures { result ≡ replicate len 0 }
    {
        Codes {
            codes: [0; 20],
            len,
        }
    }

    /// Sets the code with index `place`, if the list has one.
    pub(crate) fn set(&mut self, place: usize, code: u8)
        ensures { self.new ≡ slice_set self.old place code }
    {
        if place < usize::from(self.len) {
            self.codes[place] = code;
        }
    }

    /// The codes in order.
    pub(crate) fn as_slice(&self) -> &[u8]
        ensures { result.now ≡ self.now }
    {
        &self.codes[..usize::from(self.len)]
    }

    /// The number of codes.
    pub(crate) fn len(&self) -> u8
        ensures len { result ≡ length self.now }
        ensures most { result ≤ 20 }
    {
        self.len
    }

    /// Twenty codes: those of the list, and 0 after them.
    pub(crate) fn places(&self) -> [u8; 20]
        ensures codes { take (length self.now) result ≡ self.now }
        ensures blank { (k : ℕ) → length self.now ≤ k → slice_index result k ≡ 0 }
        ensures places { length result ≡ 20 }
    {
        self.codes
    }
}
