// What a live run is given: the inputs that the words name, read one after the other as `flux run` reads them.
ghost use Rattle.command_course.specs.Course.{Came, Runs};
ghost use Rattle.command_course.specs.Feeds.{feed_of};
ghost use Rattle.command_course.specs.Steps.{OnlyReads, StopsOf};
ghost use Rattle.command_line.specs.Views.{text_in};
ghost use Rattle.flux_top.specs.Outcome.{asked, texts};
ghost use Rattle.live_top.specs.Runs.{ComesToRun, run_in};
ghost use Rattle.live_top.specs.Stops.{StopsBefore};
ghost use Rattle.live_top.specs.Words.{as_run, course_over, files_in, options_with};
ghost use Rattle.command_course.specs.declared.stop.Stop.TheVariants.{Usage};
ghost use Rattle.run_command.specs.Courses.{runs};
ghost use Rattle.std.specs.Prelude.{◌≡◌, Err, false, IfErr, IfOk, None};

use crate::words::{Named, read_words};
use command_course::{Feed, Stop, feed_at};
use failure_script::Script;
use flux_outside::Files;
use flux_top::own_stop;
use run_command::script_at;
use std::alloc::Global;

/// The program's name, as it stands in what is said.
pub(crate) const NAME: &str = "flux_live";

/// A plan with its trades, and a failure script, which may have no orders.
#[derive(Drop)]
pub(crate) struct Given {
    pub(crate) feed: Feed,
    pub(crate) script: Script,
}

/// What the words' files say, each read and checked before the next one.
pub(crate) fn read_inputs<F: Files>(
    alloc: Global,
    words: &[String],
    files: &mut F,
) -> Result<Given, Stop>
    ensures comes { IfOk result (λ given. ComesToRun (F.told files.old) (F.told files.new) (texts words.now) (feed_of given.feed) given.script) }
    ensures usage { asked (as_run (texts words.now)) ≡ None → result ≡ Err Usage }
    ensures unasked { asked (as_run (texts words.now)) ≡ None → files.new ≡ files.old }
    ensures stops { IfErr result (λ stop. StopsBefore (F.told files.old) (F.told files.new) (texts words.now) stop) }
    ensures reads { OnlyReads (F.told files.old) (F.told files.new) result }
{
    match read_words(words) {
        None => Err(Stop::Usage),
        Some(named) => match given_at(alloc, files, named) {
            Ok(given) => Ok(given),
            Err(stop) => Err(own_stop(alloc, NAME, stop)),
        },
    }
}

// What these files say.
#[tactic(auto, using(crate::proofs::Inputs::reads_on, crate::proofs::Inputs::reads_passed))]
fn given_at<F: Files>(alloc: Global, files: &mut F, named: Named<'_>) -> Result<Given, Stop>
    ensures comes { IfOk result (λ given. Came (F.told files.old) (F.told files.new) (course_over (files_in named.entry)) (Runs (run_in given))) }
    ensures stops { IfErr result (λ stop. StopsOf (F.told files.old) (F.told files.new) (course_over (files_in named.entry)) stop) }
    ensures reads { OnlyReads (F.told files.old) (F.told files.new) result }
{
    let feed = feed_at(alloc, files, named.plan, named.trades, None)?;
    scripted(alloc, files, feed, named.script)
}

// What the file of the script says too, once the others were read.
#[tactic(auto, using(crate::proofs::Inputs::reads_passed, crate::proofs::Inputs::reads_then))]
fn scripted<F: Files>(
    alloc: Global,
    files: &mut F,
    feed: Feed,
    script: Option<&str>,
) -> Result<Given, Stop>
    ensures comes { IfOk result (λ given. Came (F.told files.old) (F.told files.new) (runs (options_with (text_in script.entry)) false (feed_of feed)) (Runs (run_in given))) }
    ensures stops { IfErr result (λ stop. StopsOf (F.told files.old) (F.told files.new) (runs (options_with (text_in script.entry)) false (feed_of feed)) stop) }
    ensures reads { OnlyReads (F.told files.old) (F.told files.new) result }
{
    let script = script_at(alloc, files, &feed.plan, script)?;
    Ok(Given { feed, script })
}
