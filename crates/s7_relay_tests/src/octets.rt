// Packets, in hex.
use std::alloc::Global;

/// A connect request and its confirm.
pub(crate) const CONNECT: &str = "0300001611E00000000100C0010AC1020100C2020102";

pub(crate) const CONFIRM: &str = "0300001611D00001000100C0010AC1020100C2020102";

/// A negotiation of a PDU of 480 and its grant: near and far.
pub(crate) const SETUP: &str = "0300001902F08032010000000400080000F0000001000101E0";

pub(crate) const GRANTED: &str = "0300001B02F080320300000004000800000000F0000001000101E0";

pub(crate) const FAR_SETUP: &str = "0300001902F08032010000000100080000F0000001000101E0";

pub(crate) const FAR_GRANTED: &str = "0300001B02F080320300000001000800000000F0000001000101E0";

/// A read of four octets of data block 1 and its answer, and both far, where the octets are those of data block 7 from
/// octet 10 on.
pub(crate) const READ: &str = "0300001F02F080320100000005000E00000401120A10020004000184000000";

pub(crate) const ANSWER: &str = "0300001D02F0803203000000050002000800000401FF04002011223344";

pub(crate) const FAR_READ: &str = "0300001F02F080320100000002000E00000401120A10020004000784000050";

pub(crate) const FAR_ANSWER: &str = "0300001D02F0803203000000020002000800000401FF04002011223344";

/// The refusals of that read: the far link is lost, and nothing more is kept.
pub(crate) const NO_LINK: &str = "0300001302F080320200000005000000008F05";

pub(crate) const NO_ROOM: &str = "0300001302F080320200000005000000008F01";

/// The octets of packets, one after another.
pub(crate) fn octets_of(alloc: Global, packets: &[&str]) -> Option<Vec<u8>> {
    let mut all = Vec::new(alloc);
    for packet in packets {
        let octets = hex::decode(alloc, packet.as_bytes()).ok()?;
        all.extend_from_slice(octets.as_slice()).ok()?;
    }
    Some(all)
}
