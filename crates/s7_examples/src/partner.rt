//! Two partners over two pipes: one sends a block to the other.
use s7_client::Config;
use s7_memory::{PipeEnd, Pipes, Side};
use s7_outer::Octets;
use s7_partner::{Partner, PartnerEvent, Role};
use std::alloc::Global;

/// Polls a partner once, at its end of the pipes. `None` if memory ran out.
fn poll(
    alloc: Global,
    partner: &mut Partner,
    pipes: &mut Pipes,
    side: Side,
) -> Option<PartnerEvent> {
    let mut end = PipeEnd { pipes, side };
    partner.poll(alloc, &mut end).ok()
}

/// A partner whose link isn't open yet. `None` if memory ran out.
fn new_partner(alloc: Global, role: Role) -> Option<Partner> {
    Partner::new(alloc, role, Config::new(1, 0, 2)).ok()
}

/// Gives a partner the block `CA FE` with the R_ID 7 to send. The polls after it send the block. `None` if the partner
/// didn't accept the block, or if memory ran out.
fn send(alloc: Global, partner: &mut Partner) -> Option<()> {
    let body = Octets::copy_of(alloc, &[0xCA, 0xFE]).ok()?;
    partner.b_send(7, body).ok()
}

/// Whether the event is the arrival of this block.
fn is_block(event: &PartnerEvent) -> bool {
    match event {
        PartnerEvent::Received { rid, body } => {
            *rid == 7 && body.as_slice() == [0xCA, 0xFE].as_slice()
        }
        _ => false,
    }
}

/// Whether the active partner reported its block as sent, and whether the passive one delivered it.
fn is_carried(alloc: Global) -> Option<(bool, bool)> {
    let mut pipes = Pipes::new(alloc, 4_096, 0).ok()?;
    let mut active = new_partner(alloc, Role::Active)?;
    let mut passive = new_partner(alloc, Role::Passive)?;
    send(alloc, &mut active)?;
    let mut carried = (false, false);
    // a few polls of each open the link and carry the block
    for _ in 0..9 {
        let event = poll(alloc, &mut active, &mut pipes, Side::Client)?;
        carried.0 |= matches!(event, PartnerEvent::Sent);
        let event = poll(alloc, &mut passive, &mut pipes, Side::Server)?;
        carried.1 |= is_block(&event);
    }
    Some(carried)
}

/// The active partner reports its block as sent, and the passive one delivers it whole.
#[test]
fn a_block_comes_whole(rt: HostRuntime) {
    assert!(rt; is_carried(rt.alloc()) == Some((true, true)));
}
