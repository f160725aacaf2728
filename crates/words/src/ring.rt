// The ring of the coefficients: the numbers modulo 2 ^ k.
ghost use Rattle.std.specs.Prelude.{◌≡◌, ◌%◌, ◌^◌, ◌≤◌};

// Numbers are modulo 2 ^ k.
#[derive(Clone, Copy)]
pub struct Ring {
    pub k: u32,
    pub ghost in_range: { (1 ≤ k) × (k ≤ 64) },
}

impl Ring {
    // The number modulo 2 ^ k: its lowest k digits.
    pub fn cut(self, c: u64) -> u64
        ensures { result ≡ c % 2 ^ self.k }
    {
        c & (u64::MAX >> (64 - self.k))
    }
}
