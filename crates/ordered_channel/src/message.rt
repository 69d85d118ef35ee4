// What goes through the channel, and the rule that it is under.
use crossbeam_channel::protocol::{Join, Lesson, Outcome, Protocol, Split};
use std::collections::LinkedList;

/// A message.
#[derive(Clone, Copy)]
pub(crate) enum Message<T> {
    Value(T),
    /// No value comes behind it.
    Stop,
}

// What an end knows: whether it sends, whether it receives, and the values that it sent and received. No value of it
// is made.
pub(crate) struct Log<T> {
    pub(crate) sends: bool,
    pub(crate) gets: bool,
    pub(crate) sent: LinkedList<T>,
    pub(crate) got: LinkedList<T>,
}

// What was received, and then what the channel holds, is what was sent.
pub(crate) struct InOrder;

impl<T> Protocol<Message<T>, Log<T>> for InOrder {
    ghost use Rattle.ordered_channel.specs.Rule.{IsInOrder, log};
    ghost use Rattle.std.specs.Prelude.{[], true};

    ghost holds = { IsInOrder };

    ghost first = { log true true [] [] };
}

// One end sends, and the other receives.
pub(crate) struct Roles;

impl<T> Split<Log<T>> for Roles {
    ghost use Rattle.ordered_channel.specs.Rule.{log};
    ghost use Rattle.std.specs.Prelude.{[], false, true};

    ghost left = { λ v. log true false v.sent [] };

    ghost right = { λ v. log false true [] v.got };
}

impl<T> Join<Log<T>> for Roles {
    ghost use Rattle.ordered_channel.specs.Rule.{log};
    ghost use Rattle.std.specs.Prelude.{[], false, true};

    ghost both = { λ v w. log true true v.sent w.got };

    ghost spent = { log false false [] [] };
}

// What a send says.
pub(crate) struct Sent;

impl<T> Outcome<Message<T>, Log<T>> for Sent {
    ghost use Rattle.ordered_channel.specs.Rule.{HasSent};

    ghost then = { HasSent };
}

impl<T> Lesson<Message<T>, Log<T>> for Sent {
    ghost fact = { λ _ _. Unit {0} };
}

// What a receive says.
pub(crate) struct Got;

impl<T> Outcome<Message<T>, Log<T>> for Got {
    ghost use Rattle.ordered_channel.specs.Rule.{HasGot};

    ghost then = { HasGot };
}

impl<T> Lesson<Message<T>, Log<T>> for Got {
    ghost fact = { λ _ _. Unit {0} };
}

// What an end knows that is both, and what a receive says to it.
pub(crate) struct Total;

impl<T> Outcome<Message<T>, Log<T>> for Total {
    ghost use Rattle.ordered_channel.specs.Rule.{HasGot};

    ghost then = { HasGot };
}

impl<T> Lesson<Message<T>, Log<T>> for Total {
    ghost use Rattle.ordered_channel.specs.Rule.{values_in};
    ghost use Rattle.std.specs.Prelude.{◌≡◌, ◌++◌};

    ghost fact = { λ v items. v.sent ≡ v.got ++ values_in items };
}
