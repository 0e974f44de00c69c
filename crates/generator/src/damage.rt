use crate::rng::Rng;
use std::alloc::{AllocError, Global};

// A word to stand in the place of another.
fn drawn_word(rng: &mut Rng, old: u32) -> u32 {
    // The arms are the weights of the draw.
    match rng.below(4) {
        0 => rng.below(14),
        1 => rng.below(40),
        2 => rng.word(),
        _ => old ^ 1,
    }
}

fn spoil(rng: &mut Rng, rows: &mut Vec<u32>) {
    let at = rng.place(rows.len()) as usize;
    if let Some(place) = rows.get_mut(at) {
        *place = drawn_word(rng, *place);
    }
}

// Rows with one or two words changed, cut short, or lengthened.
pub fn damaged(rng: &mut Rng, heap: Global, rows: &[u32]) -> Result<Vec<u32>, AllocError> {
    let mut bad = Vec::from_slice(heap, rows)?;
    // The arms are the weights of the draw.
    match rng.below(8) {
        0..=3 => spoil(rng, &mut bad),
        4..=5 => {
            spoil(rng, &mut bad);
            spoil(rng, &mut bad);
        }
        6 => bad.truncate(rng.place(rows.len()) as usize),
        _ => {
            let more = rng.below(6).saturating_add(1);
            bad.extend((0..more).map(|_| rng.below(3)))?;
        }
    }
    Ok(bad)
}
