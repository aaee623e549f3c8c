// The marks in words. Each call also says what every bit then is, those past the capacity too.
ghost use Rattle.std.specs.Prelude.{◌≡◌, ◌*◌, ◌<◌, ◌≤◌, min, true, not, ◌&&◌, length, if◌then◌else◌, nat_lt};
ghost use Rattle.model.specs.Sets.{nothing, add, remove, above, in_bits};
ghost use Rattle.marks.specs.Words.{bits_of, marks_of, marks_below, without};

use crate::VisitMap;
use crate::words::WordMarks;
use model::has_bit;

impl<'a> WordMarks<'a> {
    // Marks over lent words as they stand, with the capacity that is given or 64 times the words, whichever is smaller.
    pub fn new(words: &'a mut [u64], capacity: u32) -> WordMarks<'a>
        ensures limit { result.limit ≡ min capacity (64 * length words.old) }
        ensures bits { bits_of result ≡ in_bits 64 words.old }
    {
        let room = words.len();
        let limit = if room < 0x400_0000 {
            capacity.min(64 * room as u32)
        } else {
            capacity
        };
        WordMarks { words, limit }
    }

    // Whether the bit of a number below the capacity is set.
    fn has(&self, k: u32) -> bool
        requires { k < self.now.limit }
        ensures { result ≡ bits_of self.now k }
    {
        has_bit(self.words[(k / 64) as usize], k % 64)
    }

    // Sets the bit of a number below the capacity.
    fn set_bit(&mut self, k: u32)
        requires { k < self.old.limit }
        ensures bits { bits_of self.new ≡ add (bits_of self.old) k }
        ensures marks { marks_of self.new ≡ add (marks_of self.old) k }
        ensures same { self.new.limit ≡ self.old.limit }
    {
        let at = (k / 64) as usize;
        self.words[at] |= 1 << (k % 64);
    }

    // Takes away the bit of a number below the capacity, which is set.
    fn take_bit(&mut self, k: u32)
        requires { (k < self.old.limit) × (bits_of self.old k ≡ true) }
        ensures bits { bits_of self.new ≡ remove (bits_of self.old) k }
        ensures marks { marks_of self.new ≡ remove (marks_of self.old) k }
        ensures same { self.new.limit ≡ self.old.limit }
    {
        let at = (k / 64) as usize;
        self.words[at] ^= 1 << (k % 64);
    }

    // Clears the first n words, which lie below the capacity.
    fn clear_words(&mut self, n: usize)
        requires { 64 * n ≤ self.old.limit }
        ensures bits { bits_of self.new ≡ above (64 * n) (bits_of self.old) }
        ensures same { self.new.limit ≡ self.old.limit }
    {
        self.words[..n].fill(0);
    }

    // Clears the first bits of a word, of which at least one lies below the capacity.
    fn clear_rest(&mut self, at: usize, rest: u32)
        requires { (64 * at < self.old.limit) × (rest < 64) }
        ensures bits { bits_of self.new ≡ without at rest (bits_of self.old) }
        ensures same { self.new.limit ≡ self.old.limit }
    {
        self.words[at] = self.words[at] >> rest << rest;
    }
}

impl<'a> VisitMap for WordMarks<'a> {
    ghost marked = { λ w. marks_of w };

    ghost limit = { λ w. w.limit };

    ghost bounded = { λ w k h. marks_below w k h };

    fn capacity(&self) -> u32 {
        self.limit
    }

    fn is_visited(&self, k: u32) -> bool {
        k < self.limit && self.has(k)
    }

    fn visit(&mut self, k: u32) -> bool
        ensures new { result ≡ (nat_lt k self.old.limit && not (marks_of self.old k)) }
        ensures after { marks_of self.new ≡ (if nat_lt k self.old.limit then add (marks_of self.old) k else marks_of self.old) }
        ensures same { self.new.limit ≡ self.old.limit }
        ensures bits { bits_of self.new ≡ (if nat_lt k self.old.limit then add (bits_of self.old) k else bits_of self.old) }
    {
        if k >= self.limit {
            return false;
        }
        let old = self.has(k);
        self.set_bit(k);
        !old
    }

    fn unvisit(&mut self, k: u32) -> bool
        ensures was { result ≡ marks_of self.old k }
        ensures after { marks_of self.new ≡ remove (marks_of self.old) k }
        ensures same { self.new.limit ≡ self.old.limit }
        ensures bits { bits_of self.new ≡ (if result then remove (bits_of self.old) k else bits_of self.old) }
    {
        if k >= self.limit {
            return false;
        }
        let old = self.has(k);
        if old {
            self.take_bit(k);
        }
        old
    }

    fn clear(&mut self)
        ensures after { marks_of self.new ≡ nothing }
        ensures same { self.new.limit ≡ self.old.limit }
        ensures bits { bits_of self.new ≡ above self.old.limit (bits_of self.old) }
    {
        let whole = (self.limit / 64) as usize;
        let rest = self.limit % 64;
        self.clear_words(whole);
        if rest != 0 {
            self.clear_rest(whole, rest);
        }
    }
}
