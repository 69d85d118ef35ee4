// What can be read of a replica, items that it takes straight from their producer, and what it tells its controller.
use crate::replicas::fixture::{Case, Event, Step, check};
use replica_node::Mode;
use std::test::Fail;
use test_kit::{CONTROL, ONE};
use tuple_edge::{Body, Which};

const CASES: &[Case] = &[
    // It has what its mode needs: while it runs, gives its state to its partner, gathers, and is gone.
    (
        ONE,
        Which::B,
        &[
            Step::Does(Event::Merge(1, 3)),
            Step::Has([true, true, true, false, false]),
            Step::Does(Event::Give(CONTROL, Body::Serve { inc: 1, target: 2 })),
            Step::Has([true, true, true, true, false]),
            Step::Served(2),
            Step::Count(3),
            Step::Does(Event::Give(CONTROL, Body::Begin { inc: 2 })),
            Step::Has([false, false, false, false, true]),
            Step::Served(0),
            Step::Count(0),
            Step::Sends(Event::Fail, CONTROL, Body::Down { inc: 2 }),
            Step::Has([false, false, false, false, false]),
            Step::Served(0),
            Step::Count(0),
        ],
    ),
    // Items are pulled while it runs, of the edge that it has.
    (
        ONE,
        Which::B,
        &[
            Step::MayPull(1, false),
            Step::Does(Event::Pull(1)),
            Step::Mark(1),
            Step::Does(Event::Pull(2)),
            Step::Mark(2),
            Step::Does(Event::Pull(3)),
            Step::Mark(3),
            Step::Does(Event::Work),
            Step::Sends(Event::Fail, CONTROL, Body::Down { inc: 1 }),
            Step::MayPull(0, false),
        ],
    ),
    // Failures and requests go to the controller, in the incarnation that it is in.
    (
        ONE,
        Which::A,
        &[
            Step::Sends(Event::AskStop, CONTROL, Body::AskStop { inc: 1 }),
            Step::Sends(Event::AskBack, CONTROL, Body::AskBack),
            Step::Does(Event::Give(CONTROL, Body::Begin { inc: 4 })),
            Step::Sends(Event::Fail, CONTROL, Body::Down { inc: 4 }),
            Step::Is(Mode::Gone, 4),
        ],
    ),
];

#[test]
fn it_is_what_its_mode_says(rt: HostRuntime) -> Result<(), Fail> {
    check(rt.alloc(), CASES)
}
