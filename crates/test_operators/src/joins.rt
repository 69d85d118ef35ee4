// A join of movements of cash, which have symbol 0, with trades, worked out by hand.
use crate::steps::{Case, Numbers, Step, check};
use std::test::Fail;
use stream_ops::{By, Compare, OpSpec};
use tuple_edge::{BIG, Column};

// Of the last row of each side of an account, by the minute.
const OF_ONE: OpSpec = OpSpec::Join {
    by: By::Account,
    width: 60,
    rows: 1,
    column: Column::Symbol,
    compare: Compare::Equal,
    limit: 0,
};

const OF_TWO: OpSpec = OpSpec::Join {
    by: By::Account,
    width: 60,
    rows: 2,
    column: Column::Symbol,
    compare: Compare::Equal,
    limit: 0,
};

const OF_FOUR: OpSpec = OpSpec::Join {
    by: By::Account,
    width: 60,
    rows: 4,
    column: Column::Symbol,
    compare: Compare::Equal,
    limit: 0,
};

// Cash and trades of a minute, and cash of the next one.
const MINUTE: &[Numbers] = &[
    (34200, 7, 0, 0, 500),
    (34201, 7, 1, 1, 100),
    (34202, 7, 0, 0, -100),
    (34203, 7, 1, 2, 200),
    (34260, 7, 0, 0, 900),
];

// Cash of two minutes, and a trade of each.
const TWO_MINUTES: &[Numbers] = &[
    (60, 7, 0, 0, 5),
    (120, 7, 0, 0, 7),
    (61, 7, 1, 1, 1),
    (121, 7, 1, 1, 1),
];

const CASES: &[Case] = &[
    (
        OF_TWO,
        &[Step::Answers(
            MINUTE,
            &[
                (34201, 7, 0, 1, 600),
                (34202, 7, 0, 1, 0),
                (34203, 7, 0, 2, 700),
                (34203, 7, 0, 2, 100),
            ],
        )],
    ),
    // The last two rows of cash are kept, and those of trades.
    (
        OF_TWO,
        &[
            Step::Take(MINUTE),
            Step::Counts(4),
            Step::Keeps(&[
                (7, 0, 0, -100, 570),
                (7, 1, 0, 900, 571),
                (7, 4, 1, 100, 570),
                (7, 5, 2, 200, 570),
            ]),
        ],
    ),
    // The last rows count, also where they lie in another window.
    (OF_ONE, &[Step::Answers(TWO_MINUTES, &[(121, 7, 0, 1, 8)])]),
    (
        OF_FOUR,
        &[Step::Answers(TWO_MINUTES, &[(61, 7, 0, 1, 6), (121, 7, 0, 1, 8)])],
    ),
    // Sums of two rows stop at plus and minus nine quintillions.
    (
        OF_FOUR,
        &[Step::Answers(
            &[(60, 7, 0, BIG, -BIG), (61, 7, 1, 5, -5)],
            &[(61, 7, 0, BIG, -BIG)],
        )],
    ),
];

#[test]
fn pairs_cash_with_the_trades_of_its_minute(rt: HostRuntime) -> Result<(), Fail> {
    check(rt.alloc(), CASES)
}
