// The sign and the magnitude that a coefficient is written with.
ghost use Rattle.std.specs.Prelude.{◌≡◌, ◌^◌, ◌<◌};
ghost use Rattle.writer.specs.Writing.{signed_of};

use words::ring::Ring;

#[derive(Drop)]
pub struct Signed {
    pub minus: bool,
    pub magnitude: u64,
}

// The coefficient c in a ring, modulo 2 ^ k: c where it is at most half of 2 ^ k, else minus what is left to 2 ^ k.
pub fn with_sign(c: u64, ring: Ring) -> Signed
    requires { c < 2 ^ ring.k }
    ensures { result ≡ signed_of ring.k c }
{
    let half: u64 = 1 << (ring.k - 1);
    if c <= half {
        return Signed {
            minus: false,
            magnitude: c,
        };
    }
    Signed {
        minus: true,
        magnitude: ring.cut(words::negative(c)),
    }
}
