ghost use Rattle.std.specs.Prelude.{◌*◌, ◌≤◌, length};

// Marks as bits in lent words of 64 bits, the lowest bit of the first word first. What lies past the capacity is never touched.
#[derive(Drop)]
pub struct WordMarks<'a> {
    pub(crate) words: &'a mut [u64],
    pub(crate) limit: u32,
    ghost inside: { limit ≤ 64 * length words.now },
}
