// The slips that the rules are there to find, each beside the nearest program that keeps them.
use crate::says::{says, says_in};
use owned::Judged;
use std::alloc::{AllocError, Global};
use std::test::Fail;

// What is said of a program with a slip, and of the one beside it.
fn both(heap: Global, slip: &[u32], beside: &[u32]) -> Result<(Judged, Judged), AllocError> {
    Ok((says(heap, slip)?, says(heap, beside)?))
}

// A box variable that is full after one part of an `if` and empty after the other.
#[test]
fn full_on_one_way(rt: HostRuntime) -> Result<(), Fail> {
    assert_eq!(rt;
        both(
            rt.alloc(),
            &[3, 0, 0, 1, 0, 0, 9, 1, 1, 3, 2, 1, 0],
            &[3, 0, 0, 1, 0, 0, 9, 1, 1, 3, 2, 1, 3, 2, 0],
        )?,
        (Judged::Careless, Judged::Keeps)
    );
    Ok(())
}

// A box that was lent may be lent on, and not handed over.
#[test]
fn lent_box_handed_on(rt: HostRuntime) -> Result<(), Fail> {
    assert_eq!(rt;
        both(
            rt.alloc(),
            &[
                3, 0, 0, 1, 0, 0, 1, 3, 2, 1, 11, 0, 1, 1, 2, 1, 2, 1, 0, 1, 1, 1, 11, 1, 2, 1, 0,
                0, 2, 1, 0, 1, 0, 1, 0,
            ],
            &[
                3, 0, 0, 1, 0, 0, 1, 3, 2, 1, 11, 0, 1, 1, 2, 1, 2, 1, 0, 1, 1, 1, 11, 1, 2, 1, 0,
                1, 2, 1, 0, 1, 1, 1, 0,
            ],
        )?,
        (Judged::Careless, Judged::Keeps)
    );
    Ok(())
}

// One box is not lent twice to one call; a number may be.
#[test]
fn box_lent_twice(rt: HostRuntime) -> Result<(), Fail> {
    assert_eq!(rt;
        both(
            rt.alloc(),
            &[
                3, 0, 0, 1, 0, 0, 1, 3, 2, 1, 11, 0, 1, 2, 2, 1, 2, 1, 3, 1, 1, 0, 2, 1, 1, 2, 0,
            ],
            &[
                2, 0, 0, 0, 0, 11, 0, 1, 2, 1, 1, 1, 1, 3, 0, 0, 0, 2, 1, 1, 2, 0,
            ],
        )?,
        (Judged::Careless, Judged::Keeps)
    );
    Ok(())
}

// One box is not lent and handed over in one call; two boxes may be.
#[test]
fn box_lent_and_handed_over(rt: HostRuntime) -> Result<(), Fail> {
    assert_eq!(rt;
        both(
            rt.alloc(),
            &[
                3, 0, 0, 1, 0, 0, 1, 3, 2, 1, 11, 0, 1, 2, 2, 1, 2, 0, 3, 1, 1, 0, 2, 1, 0, 2, 0,
            ],
            &[
                4, 0, 0, 1, 1, 0, 0, 1, 3, 2, 1, 1, 3, 3, 1, 11, 0, 1, 2, 2, 1, 3, 0, 3, 1, 1, 0,
                2, 1, 0, 2, 0,
            ],
        )?,
        (Judged::Careless, Judged::Keeps)
    );
    Ok(())
}

// A box that was moved is empty; a number that was moved is not.
#[test]
fn number_stays_full(rt: HostRuntime) -> Result<(), Fail> {
    assert_eq!(rt;
        both(
            rt.alloc(),
            &[4, 0, 0, 1, 1, 0, 0, 1, 3, 2, 1, 1, 7, 3, 2, 5, 0, 2],
            &[2, 0, 0, 0, 0, 1, 7, 0, 1, 2, 0, 1, 1],
        )?,
        (Judged::Careless, Judged::Keeps)
    );
    Ok(())
}

// A loop that empties a variable at its end; it may fill it again.
#[test]
fn loop_that_empties(rt: HostRuntime) -> Result<(), Fail> {
    assert_eq!(rt;
        both(
            rt.alloc(),
            &[3, 0, 0, 1, 0, 0, 1, 3, 2, 1, 10, 1, 1, 1, 5, 0, 2, 8, 2],
            &[
                3, 0, 0, 1, 0, 0, 1, 3, 2, 1, 10, 1, 1, 1, 5, 0, 2, 1, 8, 2, 3, 2, 1,
            ],
        )?,
        (Judged::Careless, Judged::Keeps)
    );
    Ok(())
}

// 8,192 work words and 4 for each word of the program are enough, and one fewer is too few, program or not.
#[test]
fn work_words(rt: HostRuntime) -> Result<(), Fail> {
    assert_eq!(rt; says_in(rt.alloc(), &[], 8192)?, Judged::Careless);
    assert_eq!(rt; says_in(rt.alloc(), &[], 8191)?, Judged::Few);
    assert_eq!(rt; says_in(rt.alloc(), &[13], 8196)?, Judged::NoProgram);
    assert_eq!(rt; says_in(rt.alloc(), &[13], 8195)?, Judged::Few);
    Ok(())
}
