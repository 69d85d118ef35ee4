// Reading a list of events block by block.
ghost use Rattle.std.specs.Prelude.{◌≡◌, ◌<◌, ◌++◌, [], IfNone, MatchOption, OnSome, replicate};

use crate::blocks::Block;
use std::marker::Model;
use tuple_edge::Event;

/// The events of a list that are still to be read, in blocks of one event each.
#[derive(Drop)]
pub struct BlockReader<'a> {
    blocks: &'a [Block],
    // The one after them, until it was read.
    last: Option<Block>,
}

impl<'a> Model for BlockReader<'a> {
    ghost use Rattle.event_log.specs.Blocks.{BlocksLeft, events_in};
    ghost use Rattle.std.specs.Prelude.{◌+◌, ◌++◌, length, option_to_list};

    ghost Value = { BlocksLeft };

    ghost view = { λ r. record {
      events = events_in r.blocks.now ++ events_in (option_to_list r.last);
      blocks = length r.blocks.now + length (option_to_list r.last);
    } };
}

impl<'a> BlockReader<'a> {
    ghost use Rattle.event_log.specs.Blocks.{events_in};

    // A reader of these blocks and the one after them.
    pub(crate) fn new(blocks: &'a [Block], last: Block) -> BlockReader<'a>
        ensures { result.events ≡ events_in blocks.now ++ replicate last.count last.event }
    {
        BlockReader {
            blocks,
            last: Some(last),
        }
    }

    /// The next block: an event, and how many times it comes, which may be none. None where all were read.
    pub fn next(&mut self) -> Option<(Event, u64)>
        ensures block { MatchOption result (self.old.events ≡ []) (λ block. self.old.events ≡ replicate block.1 block.0 ++ self.new.events) }
        ensures fewer { OnSome result (self.new.blocks < self.old.blocks) }
        ensures unchanged { IfNone result (self.new ≡ self.old) }
    {
        let Some((block, rest)) = self.blocks.split_first() else {
            let last = self.last.take()?;
            return Some((last.event, last.count));
        };
        self.blocks = rest;
        Some((block.event, block.count))
    }
}
