// Filters: which numbers a view keeps.
#![tactic(auto)]

ghost use Rattle.std.specs.Prelude.{◌≡◌, ◌<◌};
ghost use Rattle.model.specs.Sets.{Set, bit_at, in_bits, between};

use model::has_bit;
use std::ops::Range;

// A filter means a set of numbers, and tells whether one is in it.
pub trait Filter {
    ghost members: { Self → Set };

    fn contains(&self, k: u32) -> bool
        ensures { result ≡ members self.now k };
}

// Bits over lent bytes, the lowest bit of byte 0 first. A number past the bits is not in the set.
#[derive(Clone, Copy)]
pub struct Bits<'a>(pub &'a [u8]);

impl<'a> Filter for Bits<'a> {
    ghost members = { λ b. in_bits 8 b.0.now };

    fn contains(&self, k: u32) -> bool {
        let byte = self.0.get((k / 8) as usize);
        byte.is_some_and(|bits| has_bit(u64::from(*bits), k % 8))
    }
}

// A range without its end; empty where it starts at or past its end. Written out, as a call of the range's own `contains`
// is ambiguous beside the trait's.
impl Filter for Range<u32> {
    ghost members = { λ r. between r.start r.end };

    fn contains(&self, k: u32) -> bool {
        self.start <= k && k < self.end
    }
}

// A filter that is lent. Its question is passed on by hand: no crate may write an `impl` by a macro.
impl<F: Filter> Filter for &F {
    ghost members = { λ f. F.Filter.members f.now };

    fn contains(&self, k: u32) -> bool {
        (**self).contains(k)
    }
}
