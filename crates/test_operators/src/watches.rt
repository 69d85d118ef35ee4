// What a watched operator tells of a past moment.
use crate::steps::{Case, Step, check};
use std::test::Fail;
use stream_ops::{By, Compare, OpSpec};
use tuple_edge::Column;

const CASES: &[Case] = &[
    // What was kept when the watch began stays, whatever comes; new keys are none of it.
    (
        OpSpec::Total { by: By::Account },
        &[
            Step::Take(&[(1, 1, 1, 1, 0), (1, 2, 1, 2, 0)]),
            Step::Old(None, None),
            Step::Counts(2),
            Step::Watch,
            Step::Take(&[(1, 2, 1, 5, 0), (1, 3, 1, 1, 0)]),
            Step::Old(None, Some((1, 0, 1, 0, 0))),
            Step::Old(Some((1, 0)), Some((2, 0, 2, 0, 0))),
            Step::Old(Some((2, 0)), None),
            Step::Keeps(&[(1, 0, 1, 0, 0), (2, 0, 7, 0, 0), (3, 0, 1, 0, 0)]),
            // Another watch tells of this moment.
            Step::Watch,
            Step::Old(Some((1, 0)), Some((2, 0, 7, 0, 0))),
            Step::Unwatch,
            Step::Old(None, None),
        ],
    ),
    // The last rows of a key are told slot by slot.
    (
        OpSpec::Last {
            by: By::Account,
            rows: 2,
        },
        &[
            Step::Take(&[(1, 7, 1, 1, 0), (1, 7, 1, 2, 0), (1, 8, 1, 4, 0)]),
            Step::Watch,
            Step::Take(&[(1, 7, 1, 3, 0)]),
            Step::Old(None, Some((7, 0, 1, 0, 0))),
            Step::Old(Some((7, 0)), Some((7, 1, 2, 0, 0))),
            Step::Old(Some((7, 1)), Some((8, 0, 4, 0, 0))),
            Step::Counts(3),
            Step::Keeps(&[(7, 0, 2, 0, 0), (7, 1, 3, 0, 0), (8, 0, 4, 0, 0)]),
        ],
    ),
];

#[test]
fn tells_the_entries_of_a_past_moment(rt: HostRuntime) -> Result<(), Fail> {
    check(rt.alloc(), CASES)
}

const WALK: &[Step] = &[Step::TakeDrawn(60), Step::Walk(60)];

const WALKS: &[Case] = &[
    (
        OpSpec::Keep {
            column: Column::Qty,
            compare: Compare::Less,
            limit: 0,
        },
        WALK,
    ),
    (OpSpec::Total { by: By::Both }, WALK),
    (
        OpSpec::Last {
            by: By::Both,
            rows: 3,
        },
        WALK,
    ),
    (
        OpSpec::Window {
            by: By::Both,
            width: 60,
        },
        WALK,
    ),
    (
        OpSpec::Crossing {
            by: By::Both,
            limit: 20,
        },
        WALK,
    ),
    (
        OpSpec::Join {
            by: By::Both,
            width: 60,
            rows: 3,
            column: Column::Qty,
            compare: Compare::Less,
            limit: 0,
        },
        WALK,
    ),
];

#[test]
fn walks_the_old_entries_while_rows_come(rt: HostRuntime) -> Result<(), Fail> {
    check(rt.alloc(), WALKS)
}
