// A buffer, call by call.
use crate::answer::none_is_wrong;
use ack_buffer::AckBuffer;
use std::alloc::Global;
use std::test::Fail;
use tuple_edge::{Item, OutOfMemory};

fn item(stamp: u64) -> Item {
    Item::Mark { stamp }
}

// A call of a buffer, and what it gives.
#[derive(Clone, Copy)]
enum Call {
    // Produces the items after the last one up to this number, each stamped by its number.
    Produce(u64),
    // Acknowledges the items up to this number.
    Trim(u64),
    // What is acknowledged, and the number of the last item produced.
    Numbers(u64, u64),
    // No item is kept under this number.
    Lacks(u64),
    // The item produced under this number is kept.
    Keeps(u64),
}

impl Call {
    // Whether a call gives what it has to.
    fn holds(self, buffer: &mut AckBuffer) -> Result<bool, OutOfMemory> {
        match self {
            Call::Produce(last) => produces(buffer, last),
            Call::Trim(upto) => Ok(trims(buffer, upto)),
            Call::Numbers(low, produced) => {
                Ok(buffer.low() == low && buffer.produced() == produced)
            }
            Call::Lacks(number) => Ok(buffer.get(number).is_none()),
            Call::Keeps(number) => Ok(buffer.get(number) == Some(item(number))),
        }
    }
}

// Whether each further item up to this number is produced under it.
fn produces(buffer: &mut AckBuffer, last: u64) -> Result<bool, OutOfMemory> {
    let mut all = true;
    for number in buffer.produced() + 1..=last {
        all = all && produces_one(buffer, number)?;
    }
    Ok(all)
}

fn produces_one(buffer: &mut AckBuffer, number: u64) -> Result<bool, OutOfMemory> {
    buffer.reserve(1)?;
    Ok(buffer.produced() < 5000 && buffer.produce(item(number)) == number)
}

fn trims(buffer: &mut AckBuffer, upto: u64) -> bool {
    if upto > 5000 {
        return false;
    }
    buffer.trim(upto);
    true
}

// The first of these calls of a new buffer that doesn't give what it has to.
fn first_wrong(buffer: &mut AckBuffer, calls: &[Call]) -> Result<Option<usize>, OutOfMemory> {
    for (place, call) in calls.iter().enumerate() {
        if !call.holds(buffer)? {
            return Ok(Some(place));
        }
    }
    Ok(None)
}

fn wrong_of_new(alloc: Global, calls: &[Call]) -> Result<Option<usize>, OutOfMemory> {
    let mut buffer = AckBuffer::new(alloc);
    let wrong = first_wrong(&mut buffer, calls);
    drop(buffer);
    wrong
}

// An acknowledgement that came first: only the fourth item is kept.
const ACKNOWLEDGED_FIRST: &[Call] = &[
    Call::Trim(3),
    Call::Produce(4),
    Call::Numbers(3, 4),
    Call::Lacks(3),
    Call::Keeps(4),
    Call::Lacks(5),
];

#[test]
fn counts_what_was_acknowledged_first(rt: HostRuntime) -> Result<(), Fail> {
    none_is_wrong(wrong_of_new(rt.alloc(), ACKNOWLEDGED_FIRST)?)
}

// Calls of all kinds: acknowledgements of some items, of none that is new, and past the last one; then so many items that
// its room grows and is used again.
const MIXED: &[Call] = &[
    Call::Numbers(0, 0),
    Call::Lacks(1),
    Call::Produce(3),
    Call::Numbers(0, 3),
    Call::Lacks(0),
    Call::Keeps(1),
    Call::Keeps(3),
    Call::Lacks(4),
    Call::Trim(2),
    Call::Numbers(2, 3),
    Call::Lacks(2),
    Call::Keeps(3),
    Call::Trim(1),
    Call::Numbers(2, 3),
    Call::Keeps(3),
    Call::Trim(6),
    Call::Numbers(6, 3),
    Call::Lacks(3),
    Call::Produce(6),
    Call::Numbers(6, 6),
    Call::Lacks(6),
    Call::Produce(8),
    Call::Lacks(6),
    Call::Keeps(7),
    Call::Keeps(8),
    Call::Produce(1000),
    Call::Trim(900),
    Call::Produce(1600),
    Call::Trim(1500),
    Call::Produce(4000),
    Call::Numbers(1500, 4000),
    Call::Lacks(1500),
    Call::Keeps(1501),
    Call::Keeps(2750),
    Call::Keeps(4000),
    Call::Lacks(4001),
];

#[test]
fn keeps_what_is_not_acknowledged(rt: HostRuntime) -> Result<(), Fail> {
    none_is_wrong(wrong_of_new(rt.alloc(), MIXED)?)
}
