// The groups of a switch's entries, with their numbers. No order is derived of them: who compares groups compares the numbers, as well_formed's steps do.
ghost use Rattle.std.specs.Prelude.{◌≡◌};
ghost use Rattle.indexing_iter.specs.Groups.{group_number};

#[derive(Clone, Copy, Debug, PartialEq, Eq)]
pub enum Group {
    Literals = 1,
    List = 2,
    Structures = 3,
}

// The number of a group, 1 to 3. By hand and by `as`: no derive makes a From of an enum.
impl From<Group> for u32 {
    ghost from_gives = { λ group n. n ≡ group_number group };

    fn from(group: Group) -> u32 {
        group as u32
    }
}
