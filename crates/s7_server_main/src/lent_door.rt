//! A door that is lent by a mutable borrow.
ghost use Rattle.s7_server_main.specs.LentDoor.{lent_shown};

use s7_outer::{Arrival, Door, DoorFailed};

/// A mutable borrow of a door, as a door of its own. It does what the borrowed door does. It also shows which borrow it
/// is, so that its owner knows what was done to the door.
#[derive(Drop)]
pub(crate) struct LentDoor<'a, D> {
    pub door: &'a mut D,
}

impl<L, D: Door<L>> Door<L> for LentDoor<'_, D> {
    ghost shows = { λ d. lent_shown d.door.ghost_name (D.shows d.door.now) };

    fn listen(&mut self, port: u16) -> Result<(), DoorFailed> {
        self.door.listen(port)
    }

    fn next(&mut self) -> Arrival<L> {
        self.door.next()
    }
}
