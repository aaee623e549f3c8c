ghost use Rattle.std.specs.Prelude.{◌≤◌, length};

// Marks as one byte for each number.
#[derive(Drop)]
pub struct FlagMarks<'a> {
    pub(crate) flags: &'a mut [u8],
    ghost few: { length flags.now ≤ 4294967295 },
}
