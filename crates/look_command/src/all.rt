// How many rows a plan gives.
ghost use Rattle.command_course.specs.Feeds.{IsFed, feed_of};
ghost use Rattle.look_command.specs.Courses.{rows_in_all};
ghost use Rattle.std.specs.Prelude.{◌≡◌, IfErr, IfOk};

use command_course::{Feed, Stop};
use evaluation::evaluate;
use std::alloc::Global;

/// How many rows a plan gives for what it is fed with, where no replica fails.
pub(crate) fn rows_in_all(alloc: Global, feed: &Feed) -> Result<u64, Stop>
    requires { IsFed feed.now }
    ensures value { IfOk result (λ all. all ≡ rows_in_all (feed_of feed.now)) }
    ensures want { IfErr result (λ stop. stop ≡ Stop.OutOfMemory) }
{
    let rows = evaluate(alloc, &feed.plan, &feed.trades)?;
    Ok(rows.len() as u64)
}
