// Names and their numbers: plain names say theirs; others have their place among those that are held in a lent room.
ghost use Rattle.std.specs.Prelude.{◌≤◌, length};
ghost use Rattle.names.specs.Names.{Holding, hint_count};

// How names are numbered, and which are held.
#[derive(Drop)]
pub struct Numbering<'a> {
    pub plain: bool,
    pub names: usize,
    pub room: &'a mut [u8],
    pub hints: &'a mut [u16],
    // the first names of the room, which are short, and no two of them the same; and a place for every hint
    pub ghost holding: { Holding names room.now },
    pub ghost hinted: { hint_count ≤ length hints.now },
}

impl Numbering<'_> {
    ghost use Rattle.names.specs.Numbered.{NumberedIs, StillLent};

    // The number of a name: plain, or by its place. A bad name has none: one that is not plain, or one that is too long or a name too many.
    pub fn number(&mut self, s: &[u8]) -> Option<usize>
        ensures numbered { NumberedIs self.old self.new s.now result }
        ensures lent { StillLent self.old self.new }
    {
        if self.plain {
            return super::plain_number(s);
        }
        let i = super::number_by_place(self.room, self.hints, self.names, s)?;
        self.names = self.names.max(i + 1);
        Some(i)
    }
}
