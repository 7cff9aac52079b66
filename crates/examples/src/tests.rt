// The order of the checks, by calls that break two neighbouring ones at once, the limits of a book and of a backlog, and what
// settled books have.
use pace::{Backlog, Even, Meter, Terms};
use planner::{Muster, OpenBook, Refusal};

type Plain = Backlog<Even>;

// Refusals stand in the tables by their numbers, since the rules give them and these are what is tested.

// the number, ticks, lot and backlog of a machine that is handed in to a muster of the machines 1 to 32, and the number of
// the refusal
const ENLISTS: [(u16, u16, u16, u32, u8); 10] = [
    (0, 0, 1, 0, 11),
    (10_000, 1, 1, 0, 11),
    (33, 0, 0, 0, 12),
    (33, 10_000, 1, 0, 12),
    (33, 1, 0, 1_000_000, 13),
    (33, 1, 1_000, 0, 13),
    (1, 1, 1, 1_000_000, 14),
    (1, 1, 1, 0, 41),
    (33, 1, 1, 0, 42),
    (9_999, 9_999, 999, 999_999, 42),
];

// the number, the blocks and the holders of a batch that is held in the full book, and the number of the refusal
const HOLDS: [(u32, u32, &[u16], u8); 16] = [
    (0, 0, &[1], 15),
    (100_000, 1, &[1], 15),
    (1, 0, &[], 16),
    (1, 100_000, &[9, 9], 16),
    (1, 1, &[], 17),
    (1, 1, &[2; 33], 17),
    (1, 1, &[9, 9], 18),
    (1, 1, &[2, 1], 18),
    (1, 1, &[2, 9], 43),
    (200, 1, &[65_535], 43),
    (200, 1, &[0], 43),
    (1, 1, &[2], 45),
    (200, 1, &[1], 44),
    (1, 1, &[1], 46),
    (10, 1, &[1], 47),
    (11, 99_998, &[1], 47),
];

// the number and the blocks of a batch that are dropped from the full book, and what is told
const DROPS: [(u32, u32, Result<(), u8>); 6] = [
    (0, 0, Err(15)),
    (200, 0, Err(16)),
    (200, 100_000, Err(16)),
    (200, 1, Err(48)),
    (11, 2, Err(49)),
    (1, 99_999, Ok(())),
];

// number, ticks and backlog of the machines; number, blocks and holders of the batches; the load of each machine, and the
// last ending
const SETTLED: [(
    &[(u16, u16, u32)],
    &[(u32, u32, &[u16])],
    &[(u16, u32)],
    u64,
); 5] = [
    (
        ALIKE,
        &[(10, 4, &[1]), (20, 5, &[1, 2]), (30, 3, &[2, 3])],
        &[(1, 5), (2, 4), (3, 3)],
        5,
    ),
    (UNLIKE, &[(10, 5, &[1, 2])], &[(1, 4), (2, 1)], 8),
    (UNLIKE, &[(10, 6, &[1, 2])], &[(1, 5), (2, 1)], 10),
    // the busiest machine cannot be relieved, the others can
    (
        ALIKE,
        &[(10, 9, &[1]), (20, 4, &[2, 3])],
        &[(1, 9), (2, 2), (3, 2)],
        9,
    ),
    // two batches must shift together
    (
        ALIKE,
        &[(10, 1, &[1]), (20, 1, &[1, 2]), (30, 1, &[2, 3])],
        &[(1, 1), (2, 1), (3, 1)],
        1,
    ),
];

const ALIKE: &[(u16, u16, u32)] = &[(1, 1, 0), (2, 1, 0), (3, 1, 0)];

const UNLIKE: &[(u16, u16, u32)] = &[(1, 2, 0), (2, 3, 4)];

// what a call answered, with the number of the refusal
fn told<T: Drop>(answer: Result<T, Refusal>) -> Result<T, u8> {
    answer.map_err(Refusal::number)
}

// the machines 1 to the last, all alike
fn muster(last: u16) -> Muster<Plain> {
    let mut muster = Muster::begin(Backlog(Even));
    for number in 1..=last {
        let _ = muster.enlist(number, 1, 1, 0);
    }
    muster
}

// 128 batches on machine 1, with 1,000,000 blocks in all: nine of 99,999, one of 99,891 and 118 of 1
fn full_book() -> OpenBook<Plain> {
    let mut book = muster(3).open();
    for batch in 1..=9 {
        let _ = book.hold(batch, 99_999, &[1]);
    }
    let _ = book.hold(10, 99_891, &[1]);
    for batch in 11..=128 {
        let _ = book.hold(batch, 1, &[1]);
    }
    book
}

#[test]
fn the_first_check_that_applies_is_told(rt: HostRuntime) {
    let mut muster = muster(32);
    for (number, ticks, lot, backlog, refusal) in ENLISTS {
        assert_eq!(rt;
            told(muster.enlist(number, ticks, lot, backlog)),
            Err(refusal)
        );
    }
    let mut book = full_book();
    for (batch, blocks, holders, refusal) in HOLDS {
        assert_eq!(rt; told(book.hold(batch, blocks, holders)), Err(refusal));
    }
    for (batch, blocks, answer) in DROPS {
        assert_eq!(rt; told(book.drop(batch, blocks)), answer);
    }
}

#[test]
fn a_book_holds_a_million_blocks(rt: HostRuntime) {
    let mut book = muster(1).open();
    for batch in 1..=10 {
        assert_eq!(rt; told(book.hold(batch, 99_999, &[1])), Ok(()));
    }
    assert_eq!(rt; told(book.hold(11, 10, &[1])), Ok(()));
    assert_eq!(rt; told(book.hold(11, 1, &[1])), Err(47));
}

#[test]
fn an_emptied_batch_gives_its_place_back(rt: HostRuntime) {
    let mut book = muster(1).open();
    for batch in 1..=128 {
        assert_eq!(rt; told(book.hold(batch, 2, &[1])), Ok(()));
    }
    assert_eq!(rt; told(book.hold(129, 2, &[1])), Err(44));
    assert_eq!(rt; told(book.drop(64, 1)), Ok(()));
    assert_eq!(rt; told(book.hold(129, 2, &[1])), Err(44));
    assert_eq!(rt; told(book.drop(64, 1)), Ok(()));
    assert_eq!(rt; told(book.hold(129, 2, &[1])), Ok(()));
    assert_eq!(rt; book.batches().len(), 128);
    assert_eq!(rt; told(book.hold(64, 2, &[1])), Err(44));
}

#[test]
fn no_block_ends_before_the_backlog_and_all_by_the_latest_moment(rt: HostRuntime) {
    let terms = Terms {
        ticks: 2,
        lot: 1,
        backlog: 100,
    };
    let capacities = [
        (0, 0),
        (99, 0),
        (100, 0),
        (101, 0),
        (102, 1),
        (105, 2),
        (2_000_099, 999_999),
        (2_000_100, 1_000_000),
        (99_999_999_999, 1_000_000),
    ];
    for (moment, capacity) in capacities {
        assert_eq!(rt; Backlog(Even).capacity(terms, moment), capacity);
    }
    let late = Terms {
        ticks: 0,
        lot: 0,
        backlog: u32::MAX,
    };
    let twice = Backlog(Backlog(Even));
    assert_eq!(rt; twice.capacity(late, 4_294_967_294), 0);
    assert_eq!(rt; twice.capacity(late, 8_589_934_589), 0);
    assert_eq!(rt; twice.capacity(late, 8_589_934_590), 1_000_000);
}

fn book_of(machines: &[(u16, u16, u32)], batches: &[(u32, u32, &[u16])]) -> OpenBook<Plain> {
    let mut muster = Muster::begin(Backlog(Even));
    for (number, ticks, backlog) in machines {
        let _ = muster.enlist(*number, *ticks, 1, *backlog);
    }
    let mut book = muster.open();
    for (number, blocks, holders) in batches {
        let _ = book.hold(*number, *blocks, holders);
    }
    book
}

#[test]
fn settled_books_have_the_best_loads(rt: HostRuntime) {
    for (machines, batches, loads, ending) in SETTLED {
        let settled = book_of(machines, batches).settle();
        for (number, load) in loads {
            assert_eq!(rt; told(settled.load(*number)), Ok(*load));
        }
        assert_eq!(rt; told(settled.last_ending()), Ok(ending));
    }
}

#[test]
fn a_settled_book_tells_what_it_does_not_have(rt: HostRuntime) {
    let nothing = book_of(&[], &[]).settle();
    assert_eq!(rt; told(nothing.load(1)), Err(43));
    assert_eq!(rt; told(nothing.share(10, 1)), Err(48));
    assert_eq!(rt; told(nothing.last_ending()), Err(50));
    let idle = book_of(ALIKE, &[]).settle();
    assert_eq!(rt; told(idle.load(1)), Ok(0));
    assert_eq!(rt; told(idle.last_ending()), Err(50));
    let busy = book_of(UNLIKE, &[(10, 3, &[1])]).settle();
    assert_eq!(rt; told(busy.share(10, 1)), Ok(3));
    assert_eq!(rt; told(busy.share(10, 2)), Ok(0));
    assert_eq!(rt; told(busy.share(10, 3)), Err(43));
    assert_eq!(rt; told(busy.share(11, 3)), Err(48));
}

#[test]
fn the_same_blocks_in_other_batches_have_the_same_loads(rt: HostRuntime) {
    let batches: [(u32, u32, &[u16]); 3] = [(10, 7, &[1, 2]), (20, 6, &[2, 3]), (30, 4, &[1])];
    let split: [(u32, u32, &[u16]); 5] = [
        (5, 1, &[1]),
        (6, 5, &[2, 3]),
        (7, 7, &[1, 2]),
        (8, 1, &[2, 3]),
        (9, 3, &[1]),
    ];
    let first = book_of(ALIKE, &batches).settle();
    let other = book_of(ALIKE, &split).settle();
    assert!(rt; first.same_loads(&other));
    let mut more = other.reopen();
    assert_eq!(rt; told(more.hold(5, 1, &[1])), Ok(()));
    let more = more.settle();
    assert!(rt; !first.same_loads(&more));
    let mut again = more.reopen();
    assert_eq!(rt; told(again.drop(5, 1)), Ok(()));
    assert!(rt; again.settle().same_loads(&first));
}
