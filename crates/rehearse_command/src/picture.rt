// The picture of a run that was watched.
ghost use Rattle.lane_chart.specs.SvgText.{chart_svg};
ghost use Rattle.command_course.specs.Answers.{saved_in};
ghost use Rattle.rehearse_command.specs.Rehearsals.{saved_of};
ghost use Rattle.run_timeline.specs.Timeline.{timeline};
ghost use Rattle.std.specs.Prelude.{◌≡◌, false, IfOk, option_map, string_bytes};

use command_course::Saved;
use lane_chart::write_svg;
use plan_reader::Plan;
use run_end::RunEnd;
use run_timeline::chart_of;
use run_watch::WatchedRun;
use std::alloc::Global;
use tuple_edge::OutOfMemory;

// A name of its own.
fn name_of(alloc: Global, name: &str) -> Result<String, OutOfMemory>
    ensures { IfOk result (λ own. string_bytes own ≡ name.now) }
{
    let own = format!(in alloc; "{name}")?;
    Ok(own)
}

// The picture of what was watched, for a file of this name.
fn picture_of(
    alloc: Global,
    plan: &Plan,
    watched: &WatchedRun,
    end: RunEnd,
    all: u64,
    name: &str,
) -> Result<Saved, OutOfMemory>
    ensures named { IfOk result (λ saved. string_bytes saved.name ≡ name.now) }
    ensures drawn { IfOk result (λ saved. saved.bytes.items ≡ chart_svg (timeline false plan.now watched.now.frames.items watched.now.told.items end all)) }
{
    let chart = chart_of(alloc, plan, watched, end, all, false)?;
    let bytes = write_svg(alloc, &chart)?;
    let name = name_of(alloc, name)?;
    Ok(Saved { name, bytes })
}

/// The picture of what was watched, where a file is named for it.
pub(crate) fn picture_if_named(
    alloc: Global,
    plan: &Plan,
    watched: &WatchedRun,
    end: RunEnd,
    all: u64,
    svg: Option<&str>,
) -> Result<Option<Saved>, OutOfMemory>
    ensures { IfOk result (λ saved. saved_in saved ≡ saved_of (option_map (λ n. n.now) svg.entry) (chart_svg (timeline false plan.now watched.now.frames.items watched.now.told.items end all))) }
{
    match svg {
        None => Ok(None),
        Some(name) => {
            let picture = picture_of(alloc, plan, watched, end, all, name)?;
            Ok(Some(picture))
        }
    }
}
