// The three texts of a published proof.
ghost use Rattle.std.specs.Prelude.{◌+◌, ◌≤◌, length};
ghost use Rattle.limits.specs.Limits.{text_bytes};

// No longer together than a text may be.
#[derive(Drop)]
pub(crate) struct Texts<'a> {
    pub constraints: &'a [u8],
    pub target: &'a [u8],
    pub proof: &'a [u8],
    ghost few: { length constraints.now + length target.now + length proof.now ≤ text_bytes },
}
