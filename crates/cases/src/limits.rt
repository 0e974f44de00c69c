// The limits of a program, each looked at from both sides.
use crate::says::is_program;
use std::alloc::{AllocError, Global};
use std::test::Fail;

// A signature with no variables, and the smallest procedure.
const BARE: [u32; 3] = [0, 0, 0];

const SKIP: [u32; 4] = [0, 0, 0, 0];

// Lends a box to a procedure that adds 1 to what is in it.
const LENDING: [u32; 56] = [
    4, 0, 0, 1, 2, 0, 0, 1, 2, 1, 0, 41, 1, 3, 2, 1, 1, 3, 3, 2, 1, 4, 2, 3, 1, 11, 1, 1, 1, 2, 1,
    5, 0, 2, 3, 1, 0, 0, 1, 1, 1, 1, 5, 2, 0, 1, 2, 2, 2, 1, 2, 0, 1, 6, 0, 2,
];

// A head, words that stand so many times, and a tail.
#[derive(Drop)]
struct Rows<'a>(&'a [u32], &'a [u32], usize, &'a [u32]);

impl<'a> Rows<'a> {
    fn words(&self, heap: Global) -> Result<Vec<u32>, AllocError> {
        let Rows(head, middle, times, tail) = *self;
        let mut all = head.to_vec(heap)?;
        for _ in 0..times {
            all.extend_from_slice(middle)?;
        }
        all.extend_from_slice(tail)?;
        Ok(all)
    }

    fn reads(&self, heap: Global) -> Result<bool, AllocError> {
        is_program(heap, self.words(heap)?.as_slice())
    }
}

#[test]
fn nothing_is_a_program(rt: HostRuntime) -> Result<(), Fail> {
    assert!(rt; is_program(rt.alloc(), &[])?);
    Ok(())
}

// So many statements in one another, each but the last a pair.
#[test]
fn nesting_of_statements(rt: HostRuntime) -> Result<(), Fail> {
    assert!(rt; Rows(&BARE, &[1, 0], 127, &[0]).reads(rt.alloc())?);
    assert!(rt; !Rows(&BARE, &[1, 0], 128, &[0]).reads(rt.alloc())?);
    Ok(())
}

// A statement around so many expressions, each but the last a sum.
#[test]
fn nesting_of_expressions(rt: HostRuntime) -> Result<(), Fail> {
    assert!(rt; Rows(&[0, 0, 0, 12], &[2, 0, 7], 126, &[0, 7]).reads(rt.alloc())?);
    assert!(rt; !Rows(&[0, 0, 0, 12], &[2, 0, 7], 127, &[0, 7]).reads(rt.alloc())?);
    Ok(())
}

#[test]
fn procedures(rt: HostRuntime) -> Result<(), Fail> {
    assert!(rt; Rows(&[], &SKIP, 64, &[]).reads(rt.alloc())?);
    assert!(rt; !Rows(&[], &SKIP, 65, &[]).reads(rt.alloc())?);
    Ok(())
}

#[test]
fn variables(rt: HostRuntime) -> Result<(), Fail> {
    assert!(rt; Rows(&[32], &[0], 32, &[0, 0, 0]).reads(rt.alloc())?);
    assert!(rt; !Rows(&[33], &[0], 33, &[0, 0, 0]).reads(rt.alloc())?);
    Ok(())
}

#[test]
fn arguments(rt: HostRuntime) -> Result<(), Fail> {
    assert!(rt; Rows(&[9, 0, 0, 0, 0, 0, 0, 0, 0, 0, 8], &[1], 8, &[0, 0]).reads(rt.alloc())?);
    assert!(rt; !Rows(&[9, 0, 0, 0, 0, 0, 0, 0, 0, 0, 9], &[1], 9, &[0, 0]).reads(rt.alloc())?);
    assert!(rt; is_program(rt.alloc(), &[2, 0, 0, 2, 0, 1, 5, 0])?);
    assert!(rt; !is_program(rt.alloc(), &[2, 0, 0, 3, 0, 1, 1, 5, 0])?);
    Ok(())
}

// Kinds and marks are within their limits, also in a call.
#[test]
fn kinds_and_marks(rt: HostRuntime) -> Result<(), Fail> {
    assert!(rt; is_program(rt.alloc(), &[1, 8, 0, 0, 0])?);
    assert!(rt; !is_program(rt.alloc(), &[1, 9, 0, 0, 0])?);
    assert!(rt; is_program(rt.alloc(), &[1, 0, 1, 1, 0, 0])?);
    assert!(rt; !is_program(rt.alloc(), &[1, 0, 1, 2, 0, 0])?);
    assert!(rt; is_program(rt.alloc(), &[0, 0, 0, 11, 9, 99, 1, 4, 1])?);
    assert!(rt; !is_program(rt.alloc(), &[0, 0, 0, 11, 9, 99, 1, 4, 2])?);
    Ok(())
}

// A call with many arguments, then a statement of two or three words.
#[test]
fn words(rt: HostRuntime) -> Result<(), Fail> {
    let call = [0, 0, 0, 1, 11, 0, 0, 8187];
    let whole = Rows(&call, &[0, 1], 8187, &[8, 0]).words(rt.alloc())?;
    assert_eq!(rt; whole.len(), 16384);
    assert!(rt; is_program(rt.alloc(), whole.as_slice())?);
    let long = Rows(&call, &[0, 1], 8187, &[3, 0, 0]).words(rt.alloc())?;
    assert_eq!(rt; long.len(), 16385);
    assert!(rt; !is_program(rt.alloc(), long.as_slice())?);
    assert!(rt; Rows(&[0, 0, 0, 1, 11, 0, 0, 8186], &[0, 1], 8186, &[3, 0, 0]).reads(rt.alloc())?);
    Ok(())
}

// Two procedures, of 34 and 22 words: only between them can the rows be cut.
#[test]
fn cut_anywhere(rt: HostRuntime) -> Result<(), Fail> {
    for n in 0..57 {
        assert_eq!(rt;
            is_program(rt.alloc(), &LENDING[0..n])?,
            n == 0 || n == 34 || n == 56
        );
    }
    Ok(())
}

// Numbers that begin no statement or expression.
#[test]
fn codes(rt: HostRuntime) -> Result<(), Fail> {
    assert!(rt; is_program(rt.alloc(), &[0, 0, 0, 12, 5, 0, 1, 1, 2])?);
    assert!(rt; !is_program(rt.alloc(), &[0, 0, 0, 13])?);
    assert!(rt; !is_program(rt.alloc(), &[0, 0, 0, 4294967295, 0, 0])?);
    assert!(rt; !is_program(rt.alloc(), &[0, 0, 0, 12, 6, 0, 1, 0, 1])?);
    Ok(())
}
