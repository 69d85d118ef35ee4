// Answers worked out by hand.
use crate::steps::{Case, Numbers, Step, check};
use std::test::Fail;
use stream_ops::{By, Compare, OpSpec};
use tuple_edge::{BIG, Column, Item, Row};

const TOTAL: OpSpec = OpSpec::Total { by: By::Account };

const LAST_TWO: OpSpec = OpSpec::Last {
    by: By::Account,
    rows: 2,
};

const TRADES: &[Numbers] = &[(1, 8, 2, 1, 5), (2, 7, 2, -1, 7), (3, 8, 3, 2, -9)];

const BOUGHT: &[Numbers] = &[(1, 7, 1, 1, 100), (2, 7, 1, 2, 200), (3, 7, 1, 3, 300)];

const SAME: Numbers = (1, 7, 1, 1, 100);

// The greatest time.
const LAST: i64 = 9_999_999_999;

const GREAT: &[Numbers] = &[
    (LAST, 7, 1, BIG, -BIG),
    (LAST, 7, 1, 5, -5),
    (LAST, 7, 1, -2, 2),
];

const ROW: Item = Item::Row {
    stamp: 1,
    row: Row {
        time: 1,
        account: 7,
        symbol: 1,
        qty: 1,
        value: 1,
    },
};

const CASES: &[Case] = &[
    // Sales alone are kept.
    (
        OpSpec::Keep {
            column: Column::Qty,
            compare: Compare::Less,
            limit: 0,
        },
        &[Step::Answers(TRADES, &[(2, 7, 2, -1, 7)])],
    ),
    (
        TOTAL,
        &[Step::Answers(
            TRADES,
            &[(1, 8, 0, 1, 5), (2, 7, 0, -1, 7), (3, 8, 0, 3, -4)],
        )],
    ),
    (
        OpSpec::Total { by: By::Symbol },
        &[Step::Answers(
            TRADES,
            &[(1, 0, 2, 1, 5), (2, 0, 2, 0, 12), (3, 0, 3, 2, -9)],
        )],
    ),
    // A sum stops at nine quintillions, and goes down again from there.
    (
        TOTAL,
        &[Step::Answers(
            &[
                (1, 7, 1, 0, 8_999_999_999_999_999_995),
                (2, 7, 1, 0, 10),
                (3, 7, 1, 0, -1),
            ],
            &[
                (1, 7, 0, 0, 8_999_999_999_999_999_995),
                (2, 7, 0, 0, 9_000_000_000_000_000_000),
                (3, 7, 0, 0, 8_999_999_999_999_999_999),
            ],
        )],
    ),
    (
        LAST_TWO,
        &[Step::Answers(
            BOUGHT,
            &[(1, 7, 0, 1, 100), (2, 7, 0, 3, 300), (3, 7, 0, 5, 500)],
        )],
    ),
    (
        OpSpec::Last {
            by: By::Account,
            rows: 1,
        },
        &[Step::Answers(
            BOUGHT,
            &[(1, 7, 0, 1, 100), (2, 7, 0, 2, 200), (3, 7, 0, 3, 300)],
        )],
    ),
    // As many as can be kept, with two more.
    (
        OpSpec::Last {
            by: By::Account,
            rows: 64,
        },
        &[
            Step::Take(&[SAME; 62]),
            Step::Told(62, (1, 7, 0, 62, 6200)),
            Step::Answers(
                &[SAME; 4],
                &[
                    (1, 7, 0, 63, 6300),
                    (1, 7, 0, 64, 6400),
                    (1, 7, 0, 64, 6400),
                    (1, 7, 0, 64, 6400),
                ],
            ),
        ],
    ),
    // A row that comes late counts for the window that is open.
    (
        OpSpec::Window {
            by: By::Account,
            width: 60,
        },
        &[Step::Answers(
            &[
                (34260, 7, 1, 1, 100),
                (34200, 7, 1, 2, 200),
                (34320, 7, 1, 4, 400),
            ],
            &[(34260, 7, 0, 3, 300), (34320, 7, 0, 4, 400)],
        )],
    ),
    // The end closes the windows in the order of keys.
    (
        OpSpec::Window {
            by: By::Both,
            width: 60,
        },
        &[Step::Answers(
            &[(61, 9, 2, 1, 1), (62, 9, 1, 2, 2), (3, 8, 5, 4, 4)],
            &[(0, 8, 5, 4, 4), (60, 9, 1, 2, 2), (60, 9, 2, 1, 1)],
        )],
    ),
    (
        OpSpec::Crossing {
            by: By::Account,
            limit: 250,
        },
        &[Step::Answers(
            &[(1, 7, 1, 1, 100), (2, 7, 1, 2, 200), (3, 7, 1, -1, -100)],
            &[(2, 7, 0, 3, 300), (3, 7, 0, 2, 200)],
        )],
    ),
    // Sums stop at plus and minus nine quintillions, and times at their greatest.
    (
        TOTAL,
        &[Step::Answers(
            GREAT,
            &[
                (LAST, 7, 0, BIG, -BIG),
                (LAST, 7, 0, BIG, -BIG),
                (LAST, 7, 0, BIG - 2, 2 - BIG),
            ],
        )],
    ),
    // The first row is left out of the last sums, so nothing of its stop stays.
    (
        LAST_TWO,
        &[Step::Answers(
            GREAT,
            &[
                (LAST, 7, 0, BIG, -BIG),
                (LAST, 7, 0, BIG, -BIG),
                (LAST, 7, 0, 3, -3),
            ],
        )],
    ),
    (
        OpSpec::Window {
            by: By::Account,
            width: 1,
        },
        &[Step::Answers(GREAT, &[(LAST, 7, 0, BIG - 2, 2 - BIG)])],
    ),
    (
        OpSpec::Window {
            by: By::Account,
            width: 1_000_000,
        },
        &[Step::Answers(GREAT, &[(9_999_000_000, 7, 0, BIG - 2, 2 - BIG)])],
    ),
    (
        OpSpec::Crossing {
            by: By::Account,
            limit: BIG - 1,
        },
        &[Step::Answers(
            GREAT,
            &[(LAST, 7, 0, BIG, -BIG), (LAST, 7, 0, BIG - 2, 2 - BIG)],
        )],
    ),
    // A row has an answer and a mark has none, and the end has one for each key that is kept.
    (
        OpSpec::Total { by: By::Symbol },
        &[
            Step::Most(ROW, 1),
            Step::Most(Item::Mark { stamp: 1 }, 0),
            Step::Most(Item::End { stamp: 1 }, 0),
            Step::Take(&[(1, 7, 1, 1, 1)]),
            Step::Most(Item::End { stamp: 2 }, 1),
        ],
    ),
];

#[test]
fn answers_as_by_hand(rt: HostRuntime) -> Result<(), Fail> {
    check(rt.alloc(), CASES)
}
