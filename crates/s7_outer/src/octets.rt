//! An owned sequence of octets.
ghost use Rattle.std.specs.Prelude.{◌≡◌, ℕ, List, IfOk};

use crate::Memory;
use std::alloc::Global;
use std::marker::Model;

/// An owned sequence of octets. Contracts see it as a list.
#[derive(Debug, Drop)]
pub struct Octets {
    octets: Vec<u8>,
}

impl Model for Octets {
    ghost Value = { List ℕ };

    ghost view = { λ o. o.octets.items };
}

impl Octets {
    /// The octets of a vector, which isn't copied.
    pub fn of_vec(octets: Vec<u8>) -> Octets
        ensures { result ≡ octets.items }
    {
        Octets { octets }
    }

    /// A copy of the octets. Returns `Memory` if its allocation fails.
    pub fn copy_of(alloc: Global, octets: &[u8]) -> Result<Octets, Memory>
        ensures { IfOk result (λ o. o ≡ octets.now) }
    {
        Ok(Octets {
            octets: Vec::from_slice(alloc, octets)?,
        })
    }

    /// The octets, borrowed.
    pub fn as_slice(&self) -> &[u8]
        ensures { result.now ≡ self.now }
    {
        self.octets.as_slice()
    }

    /// The octets as a vector, which isn't copied.
    pub fn into_vec(self) -> Vec<u8>
        ensures { result.items ≡ self }
    {
        self.octets
    }
}
