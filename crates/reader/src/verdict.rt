// Verdicts on what is written.
ghost use Rattle.std.specs.Prelude.{◌≡◌};
ghost use Rattle.reader.specs.Verdicts.{lesser_of};

// The verdict on two parts: NUMBER of either before TERMS of either.
pub fn lesser(a: u64, b: u64) -> u64
    ensures { result ≡ lesser_of a b }
{
    if a == limits::ACCEPTED || b == limits::NUMBER {
        b
    } else {
        a
    }
}
