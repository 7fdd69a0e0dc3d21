//! Pseudorandom numbers, the same for each seed.

ghost use Rattle.std.specs.Prelude.{◌≡◌, ◌<◌, IsTrue};

/// A linear congruential generator of 64 bits, by Knuth's constants; its upper 32 bits are handed out.
#[derive(Clone, Copy, Debug)]
pub struct Random {
    state: u64,
}

impl Random {
    /// The generator of a seed.
    pub fn new(seed: u64) -> Self {
        Random { state: seed }
    }

    /// The next 32 bits.
    pub fn word(&mut self) -> u32 {
        self.state = self
            .state
            .wrapping_mul(6_364_136_223_846_793_005)
            .wrapping_add(1_442_695_040_888_963_407);
        (self.state >> 32 & 0xffff_ffff) as u32
    }

    /// The next byte: bits 15 to 8 of the next 32.
    pub fn byte(&mut self) -> u8 {
        (self.word() >> 8 & 0xff) as u8
    }

    /// The next number below `bound`, by the upper 28 of the next 32 bits; 0 where `bound` is 0.
    pub fn below(&mut self, bound: u32) -> u32
        ensures below { 0 < bound → result < bound }
        ensures none { bound ≡ 0 → result ≡ 0 }
    {
        let number = self.word() >> 4;
        if bound == 0 { 0 } else { number % bound }
    }

    /// Whether the next of events that come once in `times` comes.
    pub fn once_in(&mut self, times: u32) -> bool
        ensures { times < 2 → IsTrue result }
    {
        self.below(times) == 0
    }

    /// The next of these numbers; 0 where there is none.
    pub fn among(&mut self, numbers: &[u32]) -> u32 {
        let place = self.place(numbers.len());
        numbers.get(place).copied().unwrap_or(0)
    }

    /// The next of these addresses; 0 where there is none.
    pub fn address(&mut self, addresses: &[u64]) -> u64 {
        let place = self.place(addresses.len());
        addresses.get(place).copied().unwrap_or(0)
    }

    // The next of so many places, by the lower 10 of the next 32 bits; 0 where there is none.
    fn place(&mut self, count: usize) -> usize
        ensures { 0 < count → result < count }
    {
        let number = self.word() as usize % 1024;
        if count == 0 { 0 } else { number % count }
    }
}
