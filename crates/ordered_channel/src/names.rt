// The name of a channel.
ghost use Rattle.ordered_channel.specs.Ends.{ChannelName};

use std::marker::Brand;

/// Which channel of such values it is. It has no call, and contracts alone see its member. Where an end is out of sight for a
/// while, its type keeps by this that it is the same channel's afterwards.
pub trait ChannelNames<T>: Send + Sync {
    /// The channel.
    ghost channel: { ChannelName T };
}

impl<T> ChannelNames<T> for Brand {
    ghost use Rattle.ordered_channel.specs.Ends.{no_channel};

    ghost channel = { no_channel };
}
