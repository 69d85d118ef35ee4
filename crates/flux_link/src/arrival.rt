// What an inlet gives.
use tuple_edge::Packet;

/// A packet that a link gave, with its place, from 1, in the list of the packets sent on the link.
#[derive(Clone, Copy, Debug, PartialEq, Eq)]
pub struct Arrival {
    pub index: u64,
    pub packet: Packet,
}
