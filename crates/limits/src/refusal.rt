// Refusals, each with the number that document 01 gives it.
ghost use Rattle.std.specs.Prelude.{◌≡◌, ◌≤◌};
ghost use Rattle.limits.specs.Refusals.{number_of, outcome};
ghost use Rattle.limits.specs.Verdicts.{NAMES};

// Why something is refused.
#[derive(Clone, Copy, PartialEq, Eq)]
pub enum Refusal {
    Short = 1,
    LongText = 2,
    LongLine = 3,
    Form = 4,
    Number = 5,
    Terms = 6,
    Order = 7,
    Taken = 8,
    Missing = 9,
    Seen = 10,
    Products = 11,
    Mismatch = 12,
    NotBit = 13,
    Full = 14,
    NoGoal = 15,
    NotReached = 16,
    // Of published texts, directly after TERMS.
    Names = 17,
}

impl Refusal {
    // The number of a refusal.
    pub fn number(self) -> u64
        ensures { result ≡ number_of self }
    {
        self as u64
    }
}

// The refusal of a number; 0 refuses nothing.
pub fn verdict(number: u64) -> Result<(), Refusal>
    requires { number ≤ NAMES }
    ensures { outcome result ≡ number }
{
    match number {
        crate::SHORT => Err(Refusal::Short),
        crate::LONGTEXT => Err(Refusal::LongText),
        crate::LONGLINE => Err(Refusal::LongLine),
        crate::FORM => Err(Refusal::Form),
        crate::NUMBER => Err(Refusal::Number),
        crate::TERMS => Err(Refusal::Terms),
        crate::ORDER => Err(Refusal::Order),
        crate::TAKEN => Err(Refusal::Taken),
        crate::MISSING => Err(Refusal::Missing),
        crate::SEEN => Err(Refusal::Seen),
        crate::PRODUCTS => Err(Refusal::Products),
        crate::MISMATCH => Err(Refusal::Mismatch),
        crate::NOTBIT => Err(Refusal::NotBit),
        crate::FULL => Err(Refusal::Full),
        crate::NOGOAL => Err(Refusal::NoGoal),
        crate::NOTREACHED => Err(Refusal::NotReached),
        crate::NAMES => Err(Refusal::Names),
        _ => Ok(()),
    }
}
