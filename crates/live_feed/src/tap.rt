// The tap beside egress.
ghost use Rattle.ordered_channel.specs.Ends.{ChannelName, sends_to, values_sent};
ghost use Rattle.std.specs.Prelude.{◌≡◌};
ghost use Rattle.tuple_edge.specs.declared.row.Row.{Row};

use ordered_channel::{ChannelNames, Sender};
use partition_runner::Tap;
use std::marker::PhantomData;
use std::sync::Wait;
use tuple_edge::Row;

/// A tap that gives on the rows by sending them.
pub(crate) trait SendingTap: Tap {
    /// The channel that it sends to.
    ghost channel: { ChannelName Row };

    /// Gives back the end that it sends by.
    fn into_sender(self) -> Sender<Row>
        ensures sent { values_sent result ≡ Self.given self }
        ensures channel { sends_to result ≡ channel };
}

/// A tap that sends the rows it is offered into a channel. What doesn't fit is left for its next offer, so no worker
/// waits for it.
#[derive(Drop)]
pub(crate) struct RowTap<'a, R: Wait + Sync, C: ChannelNames<Row>> {
    pub(crate) rt: &'a R,
    pub(crate) sender: Sender<Row>,
    pub(crate) channel: PhantomData<C>,
    ghost named: { sends_to sender ≡ C.channel },
}

impl<'a, R: Wait + Sync, C: ChannelNames<Row>> Tap for RowTap<'a, R, C> {
    ghost given = { λ tap. values_sent tap.sender };

    fn offer(&mut self, rows: &[Row]) {
        self.sender.offer(self.rt, rows);
    }
}

impl<'a, R: Wait + Sync, C: ChannelNames<Row>> SendingTap for RowTap<'a, R, C> {
    ghost channel = { C.channel };

    fn into_sender(self) -> Sender<Row> {
        let RowTap { sender, .. } = self;
        sender
    }
}
