// Bits of numbers.
ghost use Rattle.std.specs.Prelude.{◌≡◌};
ghost use Rattle.model.specs.Sets.{bit_at};

// Whether bit i of a number is set, the lowest first. From bit 64 on none is.
pub fn has_bit(word: u64, i: u32) -> bool
    ensures { result ≡ bit_at word i }
{
    i < 64 && (word >> i) & 1 == 1
}
