//! A link and a door that count calls which come too late.
ghost use Rattle.std.specs.Prelude.{◌≡◌};

use s7_outer::{Arrival, Clock, Door, DoorFailed, Got, Link, Sent, Tick};

/// A link that counts the calls for octets after its shutdown.
#[derive(Drop)]
pub(crate) struct WatchedLink<L> {
    pub(crate) link: L,
    pub(crate) is_shut: bool,
    pub(crate) late: u32,
}

impl<L> WatchedLink<L> {
    /// Counts a call for octets if the link is shut.
    fn watch(&mut self)
        ensures { self.new.link ≡ self.old.link }
    {
        if self.is_shut {
            self.late = self.late.saturating_add(1);
        }
    }
}

impl<L: Link> Link for WatchedLink<L> {
    ghost shows = { λ w. L.shows w.link };

    fn receive(&mut self, into: &mut [u8]) -> Got {
        self.watch();
        self.link.receive(into)
    }

    fn transmit(&mut self, piece: &[u8]) -> Sent {
        self.watch();
        self.link.transmit(piece)
    }

    fn shutdown(&mut self) {
        self.is_shut = true;
        self.link.shutdown();
    }
}

impl<L: Clock> Clock for WatchedLink<L> {
    fn now(&mut self) -> Tick {
        self.link.now()
    }
}

/// A door that counts the calls to listen, and those for a link after its end or its failure.
#[derive(Drop)]
pub(crate) struct WatchedDoor<D> {
    pub(crate) door: D,
    pub(crate) listens: u32,
    pub(crate) port: u16,
    pub(crate) is_over: bool,
    pub(crate) late: u32,
}

impl<L, D: Door<L>> Door<L> for WatchedDoor<D> {
    ghost shows = { λ w. D.shows w.door };

    fn listen(&mut self, port: u16) -> Result<(), DoorFailed> {
        self.listens = self.listens.saturating_add(1);
        self.port = port;
        self.door.listen(port)
    }

    fn next(&mut self) -> Arrival<L> {
        if self.is_over {
            self.late = self.late.saturating_add(1);
        }
        let arrival = self.door.next();
        self.is_over = !matches!(arrival, Arrival::Link(_));
        arrival
    }
}
