//! Reads of status lists.
ghost use Rattle.std.specs.Prelude.{◌≡◌, ◌≤◌, [], length};
ghost use Rattle.s7_szl.specs.Images.{image_of};
ghost use Rattle.s7_plant.specs.Answers.{listed};
ghost use Rattle.s7_plant.specs.Replies.{IsReadyReply, said, said_of};

use crate::codes::NO_LIST;
use crate::reply::Reply;
use s7_szl::write_table;

/// Puts the image of a status list into the reply. Refuses with D401 if there is no such list.
pub(crate) fn say_list(id: u16, index: u16, running: bool, reply: &mut Reply)
    requires empty { said_of reply.old ≡ said 0 [] [] }
    requires reply { IsReadyReply reply.old }
    ensures said { said_of reply.new ≡ listed (image_of id index running) }
    ensures most { length reply.new.body.octets ≤ 212 }
    ensures ready { IsReadyReply reply.new }
{
    let mut octets = [0; 512];
    match write_table(id, index, running, &mut octets) {
        Some(len) => reply.body.add(&octets[..len]),
        None => reply.refuse(NO_LIST),
    }
}
