// A thousand keys for each operator, with two rows of each, also at the end.
use crate::steps::{Case, Step, check};
use std::test::Fail;
use stream_ops::{By, Compare, OpSpec};
use tuple_edge::Column;

const CASES: &[Case] = &[
    // The second rows alone are sales.
    (
        OpSpec::Keep {
            column: Column::Qty,
            compare: Compare::Less,
            limit: 0,
        },
        &[
            Step::TakeMany,
            Step::Counts(0),
            Step::End,
            Step::Told(1000, (61, 999, 0, -1, 100)),
        ],
    ),
    (
        OpSpec::Total { by: By::Account },
        &[
            Step::TakeMany,
            Step::Counts(1000),
            Step::End,
            Step::Told(2000, (61, 999, 0, 1, 400)),
        ],
    ),
    (
        OpSpec::Last {
            by: By::Account,
            rows: 1,
        },
        &[
            Step::TakeMany,
            Step::Counts(1000),
            Step::End,
            Step::Told(2000, (61, 999, 0, -1, 100)),
        ],
    ),
    (
        OpSpec::Window {
            by: By::Account,
            width: 60,
        },
        &[
            Step::TakeMany,
            Step::Counts(1000),
            Step::End,
            Step::Told(1000, (60, 999, 0, 1, 400)),
        ],
    ),
    (
        OpSpec::Crossing {
            by: By::Account,
            limit: 300,
        },
        &[
            Step::TakeMany,
            Step::Counts(1000),
            Step::End,
            Step::Told(1000, (61, 999, 0, 1, 400)),
        ],
    ),
    // The second row of an account is paired with its first one, and both are kept.
    (
        OpSpec::Join {
            by: By::Account,
            width: 60,
            rows: 4,
            column: Column::Symbol,
            compare: Compare::Equal,
            limit: 0,
        },
        &[
            Step::TakeMany,
            Step::Counts(2000),
            Step::End,
            Step::Told(1000, (61, 999, 0, 1, 400)),
        ],
    ),
];

#[test]
fn answers_for_a_thousand_keys(rt: HostRuntime) -> Result<(), Fail> {
    check(rt.alloc(), CASES)
}
