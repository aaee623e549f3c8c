// Marks: a set of numbers below a capacity, kept in lent memory.
#![tactic(auto)]

mod bits;
mod words;

ghost use Rattle.std.specs.Prelude.{◌≡◌, ℕ, ◌-◌, ◌<◌, Bool, true, not, ◌&&◌, if◌then◌else◌, nat_lt};
ghost use Rattle.model.specs.Sets.{Set, nothing, add, remove, first_free};

pub use words::WordMarks;

pub trait VisitMap {
    // the numbers that are marked
    ghost marked: { Self → Set };

    // the capacity
    ghost limit: { Self → ℕ };

    // nothing is marked at or past the capacity
    ghost bounded: { (s : Self) (k : ℕ) → marked s k ≡ true → k < limit s };

    // The capacity, which never changes.
    fn capacity(&self) -> u32
        ensures { result ≡ limit self.now };

    // Whether the number is marked.
    fn is_visited(&self, k: u32) -> bool
        ensures { result ≡ marked self.now k };

    // Marks the number, and says whether it was new. At or past the capacity: no, and nothing is done.
    fn visit(&mut self, k: u32) -> bool
        ensures new { result ≡ (nat_lt k (limit self.old) && not (marked self.old k)) }
        ensures after { marked self.new ≡ (if nat_lt k (limit self.old) then add (marked self.old) k else marked self.old) }
        ensures same { limit self.new ≡ limit self.old };

    // Unmarks the number, and says whether it was marked.
    fn unvisit(&mut self, k: u32) -> bool
        ensures was { result ≡ marked self.old k }
        ensures after { marked self.new ≡ remove (marked self.old) k }
        ensures same { limit self.new ≡ limit self.old };

    // Unmarks all.
    fn clear(&mut self)
        ensures after { marked self.new ≡ nothing }
        ensures same { limit self.new ≡ limit self.old };

    // The first unmarked number at or after a place, or nothing when none below the capacity is left.
    fn first_unmarked(&self, place: u32) -> Option<u32>
        ensures { result ≡ first_free (marked self.now) place (limit self.now - place) }
    {
        // No `find`: its proof is one answer, so a wrong body would be refused in the proof file and not here.
        for k in place..self.capacity() {
            if !self.is_visited(k) {
                return Some(k);
            }
        }
        None
    }
}
