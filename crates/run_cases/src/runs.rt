// Runs at the floor of work memory, runs that leave the numbers shown alone, and deep ones.
use interpreter::{Ran, go, work_words};
use std::alloc::{AllocError, Global};
use std::test::Fail;

// Shows 5 and gives 7.
const SHOWING: [u32; 12] = [1, 0, 0, 0, 1, 12, 0, 5, 2, 0, 0, 7];

// Looks into an empty variable.
const CARELESS: [u32; 8] = [2, 0, 1, 0, 0, 5, 0, 1];

// A procedure calls itself as often as its argument says, 99,998 times, and counts the calls.
const COUNTING: [u32; 49] = [
    2, 0, 0, 0, 0, 1, 2, 1, 0, 99998, 11, 0, 1, 1, 1, 0, 3, 0, 0, 0, 1, 0, 1, 1, 9, 1, 0, 1, 2, 2,
    3, 1, 0, 0, 1, 11, 1, 1, 1, 2, 0, 0, 2, 1, 2, 1, 1, 0, 1,
];

// The word for how a run ends on 3 cells, with 2 open calls and so many work words.
fn ends(
    heap: Global,
    program: &[u32],
    shown: &mut [u32],
    words: usize,
) -> Result<&'static str, AllocError> {
    let mut work = vec![in heap; 0; words]?;
    Ok(go(program, 3, 2, 10, shown, work.as_mut_slice()).name())
}

// 8,192 words, 4 for each of 12 words, 2 for each of 3 cells, 512 for each of 2 open calls.
#[test]
fn floor_of_work_words(rt: HostRuntime) -> Result<(), Fail> {
    let floor = 8192 + 4 * 12 + 2 * 3 + 512 * 2;
    assert_eq!(rt; work_words(SHOWING.len(), 3, 2), floor);
    let mut shown = [9; 2];
    assert_eq!(rt; ends(rt.alloc(), &SHOWING, &mut shown, floor - 1)?, "small");
    assert_eq!(rt; shown[0], 9);
    assert_eq!(rt; ends(rt.alloc(), &SHOWING, &mut shown, floor)?, "done");
    assert_eq!(rt; shown[0], 5);
    assert_eq!(rt; shown[1], 9);
    Ok(())
}

// A program that is not run leaves what was shown before.
#[test]
fn not_run(rt: HostRuntime) -> Result<(), Fail> {
    let mut shown = [9; 2];
    assert_eq!(rt; ends(rt.alloc(), &CARELESS, &mut shown, 10_000)?, "unkept");
    assert_eq!(rt;
        ends(rt.alloc(), &SHOWING[0..5], &mut shown, 10_000)?,
        "unread"
    );
    assert_eq!(rt; shown[0], 9);
    assert_eq!(rt; shown[1], 9);
    Ok(())
}

// The result of a run with so many open calls.
fn counted(heap: Global, depth: u32) -> Result<Ran, AllocError> {
    let mut work = vec![in heap; 0; work_words(COUNTING.len(), 0, depth)]?;
    Ok(go(&COUNTING, 0, depth, 100_000, &mut [], work.as_mut_slice()))
}

// A hundred thousand open calls take work words, and no stack of the machine that runs them.
#[test]
fn hundred_thousand_open_calls(rt: HostRuntime) -> Result<(), Fail> {
    let Ran::Done(result, _, left) = counted(rt.alloc(), 100_000)? else {
        return Err(Fail::new("not done"));
    };
    assert_eq!(rt; result, 99_999);
    assert_eq!(rt; left, 0);
    assert_eq!(rt; counted(rt.alloc(), 99_999)?.name(), "deep");
    Ok(())
}
