//! A dial that counts its calls.
use s7_outer::{Dial, Dialled};

/// Calls the dial inside, and counts the calls.
#[derive(Drop)]
pub struct CountedDial<K> {
    inner: K,
    calls: u64,
}

impl<K> CountedDial<K> {
    /// A dial around this one, with no call yet.
    pub fn new(inner: K) -> CountedDial<K> {
        CountedDial { inner, calls: 0 }
    }

    /// How often it was called.
    pub fn calls(&self) -> u64 {
        self.calls
    }
}

impl<L, K: Dial<L>> Dial<L> for CountedDial<K> {
    ghost shows = { λ d. K.shows d.inner };

    fn call(&mut self, host: &str, port: u16) -> Dialled<L> {
        self.calls = self.calls.saturating_add(1);
        self.inner.call(host, port)
    }
}
