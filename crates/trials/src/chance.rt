// Numbers by chance, the same for the same seed, so that what a run finds can be run again.
ghost use Rattle.std.specs.Prelude.{◌≡◌, ◌/◌, ◌^◌, bit_or};
ghost use Rattle.trials.specs.Chance.{stepped};

// xorshift of 64 bits, with shifts by 13, 7 and 17.
#[derive(Clone, Copy)]
pub struct Chance {
    state: u64,
}

impl Chance {
    // A seed is made odd: a state of 0 would stay 0.
    pub fn from_seed(seed: u64) -> Chance
        ensures { result.state ≡ bit_or seed 1 }
    {
        Chance { state: seed | 1 }
    }

    // The next number: the higher half of the next state, since the lower bits are the weaker ones.
    pub fn next(&mut self) -> u32
        ensures state { self.new.state ≡ stepped self.old.state }
        ensures value { result ≡ stepped self.old.state / 2 ^ 32 }
    {
        self.state ^= self.state.wrapping_shl(13);
        self.state ^= self.state.wrapping_shr(7);
        self.state ^= self.state.wrapping_shl(17);
        (self.state / 0x1_0000_0000) as u32
    }
}

#[cfg(test)]
mod tests {
    use super::*;

    // The numbers after the seed 1, as they were worked out apart from this program.
    #[test]
    fn goes_on_from_one(rt: HostRuntime) {
        let mut chance = Chance::from_seed(1);
        for want in [0, 268_452_102, 2_602_468_399, 4_115_985_667] {
            assert_eq!(rt; chance.next(), want);
        }
    }
}
