//! Systems over boxes: how each kind of device serves behind its paths.

use crate::tests::systems::boxes::{failing_tally, queue, tally};
use crate::tests::systems::stepping::{Stage, answers};
use path_model::{ActId, Attempt, OpId, PathId, Reply, Verb};

/// A queue of two places, filled and emptied in turns.
const BUFFER: &[u8] =
    b"resource buf queue 2 operation put0, put1, get0, get1 path put0 ; put1 end path get0 ; get1 end \
path put0 ; get0 end path put1 ; get1 end end";

/// A queue of one place.
const BAG: &[u8] = b"resource q queue 1 operation a end";

/// A tally.
const SUM: &[u8] = b"resource t tally operation a end";

const START: Attempt = Attempt::Start(OpId(0));

const FIRST: ActId = ActId(0);

const BUFFER_STAGES: &[Stage<'static>] = &[
    (
        &[
            (1, Attempt::Start(OpId(0)), Reply::Started(ActId(0))),
            (1, Attempt::Apply(ActId(0), Verb::Put(5)), Reply::Used(1)),
            (1, Attempt::Finish(ActId(0)), Reply::Finished),
            (1, Attempt::Start(OpId(1)), Reply::Started(ActId(1))),
            (1, Attempt::Apply(ActId(1), Verb::Put(6)), Reply::Used(2)),
            (1, Attempt::Finish(ActId(1)), Reply::Finished),
            (1, Attempt::Start(OpId(0)), Reply::Blocked(PathId(2))),
            (2, Attempt::Start(OpId(3)), Reply::Blocked(PathId(1))),
        ],
        &[5, 6],
    ),
    (
        &[
            (2, Attempt::Start(OpId(2)), Reply::Started(ActId(2))),
            (2, Attempt::Apply(ActId(2), Verb::Take), Reply::Used(5)),
            (2, Attempt::Finish(ActId(2)), Reply::Finished),
        ],
        &[6],
    ),
    (
        &[
            (2, Attempt::Start(OpId(3)), Reply::Started(ActId(3))),
            (2, Attempt::Apply(ActId(3), Verb::Take), Reply::Used(6)),
        ],
        &[],
    ),
];

#[test]
fn bounded_buffer(rt: HostRuntime) {
    let queue = queue(&rt, rt.alloc(), 2, &[]);
    answers(&rt, rt.alloc(), BUFFER, queue, BUFFER_STAGES);
}

const BAG_STAGES: &[Stage<'static>] = &[
    (
        &[
            (1, START, Reply::Started(FIRST)),
            (1, Attempt::Apply(FIRST, Verb::Put(9)), Reply::Used(1)),
            (1, Attempt::Apply(FIRST, Verb::Put(9)), Reply::Full),
        ],
        &[9],
    ),
    (
        &[
            (1, Attempt::Apply(FIRST, Verb::Take), Reply::Used(9)),
            (1, Attempt::Apply(FIRST, Verb::Take), Reply::Empty),
            (1, Attempt::Apply(FIRST, Verb::Look), Reply::Empty),
            (1, Attempt::Apply(FIRST, Verb::Add(1)), Reply::NotOffered),
        ],
        &[],
    ),
];

#[test]
fn queue_of_one(rt: HostRuntime) {
    let queue = queue(&rt, rt.alloc(), 1, &[]);
    answers(&rt, rt.alloc(), BAG, queue, BAG_STAGES);
}

const TALLY_STAGES: &[Stage<'static>] = &[(
    &[
        (1, START, Reply::Started(FIRST)),
        (1, Attempt::Apply(FIRST, Verb::Add(1)), Reply::Overflow),
        (
            1,
            Attempt::Apply(FIRST, Verb::Add(0)),
            Reply::Used(u64::MAX),
        ),
        (1, Attempt::Apply(FIRST, Verb::Put(1)), Reply::NotOffered),
    ],
    &[u64::MAX],
)];

#[test]
fn tally_at_the_end(rt: HostRuntime) {
    let tally = tally(&rt, rt.alloc(), u64::MAX);
    answers(&rt, rt.alloc(), SUM, tally, TALLY_STAGES);
}

const FAILING_STAGES: &[Stage<'static>] = &[
    (
        &[
            (1, START, Reply::Started(FIRST)),
            (1, Attempt::Apply(FIRST, Verb::Take), Reply::NotOffered),
            (
                1,
                Attempt::Apply(FIRST, Verb::Add(u64::MAX)),
                Reply::Overflow,
            ),
            (1, Attempt::Apply(FIRST, Verb::Add(4)), Reply::DeviceFailed),
        ],
        &[3],
    ),
    (
        &[
            (1, Attempt::Apply(FIRST, Verb::Add(4)), Reply::Used(7)),
            (1, Attempt::Apply(FIRST, Verb::Look), Reply::Used(7)),
            (1, Attempt::Finish(FIRST), Reply::Finished),
        ],
        &[7],
    ),
];

// A device fails at the first call that its law would serve, and keeps its contents; also if its count is at its maximum.
#[test]
fn failing_devices_keep_their_contents(rt: HostRuntime) {
    for failures in [0, 1, u64::MAX] {
        let tally = failing_tally(&rt, rt.alloc(), 3, 1, failures);
        answers(&rt, rt.alloc(), SUM, tally, FAILING_STAGES);
    }
}

const ADD: Attempt = Attempt::Apply(FIRST, Verb::Add(2));

// The replies to four uses of a tally that fails at the first, the second, the third and the fourth.
const FOUR_USES: &[Stage<'static>] = &[
    (
        &[
            (1, START, Reply::Started(FIRST)),
            (1, ADD, Reply::DeviceFailed),
            (1, ADD, Reply::Used(2)),
            (1, ADD, Reply::Used(4)),
            (1, ADD, Reply::Used(6)),
        ],
        &[6],
    ),
    (
        &[
            (1, START, Reply::Started(FIRST)),
            (1, ADD, Reply::Used(2)),
            (1, ADD, Reply::DeviceFailed),
            (1, ADD, Reply::Used(4)),
            (1, ADD, Reply::Used(6)),
        ],
        &[6],
    ),
    (
        &[
            (1, START, Reply::Started(FIRST)),
            (1, ADD, Reply::Used(2)),
            (1, ADD, Reply::Used(4)),
            (1, ADD, Reply::DeviceFailed),
            (1, ADD, Reply::Used(6)),
        ],
        &[6],
    ),
    (
        &[
            (1, START, Reply::Started(FIRST)),
            (1, ADD, Reply::Used(2)),
            (1, ADD, Reply::Used(4)),
            (1, ADD, Reply::Used(6)),
            (1, ADD, Reply::DeviceFailed),
        ],
        &[6],
    ),
];

#[test]
fn tally_fails_at_one_use(rt: HostRuntime) {
    for (place, stage) in FOUR_USES.iter().enumerate() {
        let fails_at = (place as u64).saturating_add(1);
        let tally = failing_tally(&rt, rt.alloc(), 0, fails_at, 0);
        answers(&rt, rt.alloc(), SUM, tally, &[*stage]);
    }
}
