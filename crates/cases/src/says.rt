// What judge says of rows, with work words for the longest program.
use owned::{Judged, WORK_WORDS, judge};
use std::alloc::{AllocError, Global};

// With so many work words. A crate of trials has the same: neither stands on the other, and those below have no heap.
pub fn says_in(heap: Global, rows: &[u32], words: usize) -> Result<Judged, AllocError> {
    let mut work = vec![in heap; 0; words]?;
    Ok(judge(rows, work.as_mut_slice()))
}

pub fn says(heap: Global, rows: &[u32]) -> Result<Judged, AllocError> {
    says_in(heap, rows, WORK_WORDS)
}

pub fn is_program(heap: Global, rows: &[u32]) -> Result<bool, AllocError> {
    Ok(says(heap, rows)? != Judged::NoProgram)
}
