// Numbers that look random, the same for the same seed.
#[derive(Clone, Copy, Debug, PartialEq, Eq)]
pub struct Rng {
    state: u64,
}

impl Rng {
    pub fn new(seed: u32) -> Rng {
        let mut rng = Rng {
            state: u64::from(seed).wrapping_mul(0x9e37_79b9_7f4a_7c15) | 1,
        };
        for _ in 0..8 {
            rng.word();
        }
        rng
    }

    // Any number.
    pub fn word(&mut self) -> u32 {
        let mut state = self.state;
        state ^= state << 13;
        state ^= state >> 7;
        state ^= state << 17;
        self.state = state;
        (state.wrapping_mul(0x2545_f491_4f6c_dd1d) >> 32 & 0xffff_ffff) as u32
    }

    // A number below another; 0 if there is none.
    pub fn below(&mut self, end: u32) -> u32 {
        let word = self.word();
        if end == 0 { 0 } else { word % end }
    }

    // The place of one of so many things.
    pub(crate) fn place(&mut self, many: usize) -> u32 {
        self.below(u32::try_from(many).unwrap_or(0))
    }

    // True once in so many times.
    pub fn once_in(&mut self, times: u32) -> bool {
        self.below(times) == 0
    }
}
