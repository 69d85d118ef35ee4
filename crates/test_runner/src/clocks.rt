// The histories of a run in one list, merged here by hand: time after time the next event of the least clock.
use std::alloc::Global;
use tuple_edge::{Event, History, OutOfMemory, Stamped};

// The history whose next event has the least clock, the first one of several, and that event. So many events of each
// history were taken.
fn next_event(histories: &[History], taken: &[usize]) -> Option<(usize, Stamped)> {
    let mut least: Option<(usize, Stamped)> = None;
    for (nth, (history, taken)) in histories.iter().zip(taken.iter()).enumerate() {
        match (least, history.entries.get(*taken)) {
            (Some((_, before)), Some(next)) if before.clock <= next.clock => {}
            (_, Some(next)) => least = Some((nth, *next)),
            (_, None) => {}
        }
    }
    least
}

// How many events all histories have.
fn count(histories: &[History]) -> usize {
    let mut count = 0usize;
    for history in histories {
        count = count.saturating_add(history.entries.len());
    }
    count
}

// All events in the order of their clocks, and those of one clock in the order of histories.
pub(crate) fn by_clock(alloc: Global, histories: &[History]) -> Result<Vec<Event>, OutOfMemory> {
    let mut taken = vec![in alloc; 0usize; histories.len()]?;
    let mut events = Vec::new(alloc);
    for _event in 0..count(histories) {
        let Some((nth, stamped)) = next_event(histories, &taken) else {
            break;
        };
        events.push(stamped.event)?;
        if let Some(taken) = taken.get_mut(nth) {
            *taken = taken.saturating_add(1);
        }
    }
    Ok(events)
}
