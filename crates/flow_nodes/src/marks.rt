//! Marks of places, sixteen to a word, as the lanes of a group have their jobs.

ghost use Rattle.std.specs.Prelude.{◌≡◌, ◌≢◌, ℕ, ◌+◌, ◌*◌, ◌/◌, ◌<◌, ◌≤◌, List, ◌∷◌, ◌++◌, length, slice_index, take};
ghost use Rattle.std.specs.Prelude.{[], IfSome, IfNone};
ghost use Rattle.flow_limits.specs.Limits.{most_jobs};
ghost use Rattle.flow_nodes.specs.Groups.{most_groups};
ghost use Rattle.flow_nodes.specs.Marks.{chosen, mark};

use crate::group::{LANES, MAX_GROUPS};

/// Which places are marked, of as many as a shop may have jobs. The first word has the marks of the first sixteen, the
/// lowest bit first.
#[derive(Clone, Copy)]
pub struct Marks {
    /// The words, one for each group.
    pub words: [u16; MAX_GROUPS],
}

impl Marks {
    /// No place is marked.
    pub fn none() -> Marks
        ensures size { length result.words ≡ most_groups }
        ensures each { (place : ℕ) → mark result.words place ≡ 0 }
    {
        Marks {
            words: [0; MAX_GROUPS],
        }
    }

    /// The first places are marked, so many of them.
    pub fn first(count: u16) -> Marks
        requires { count ≤ most_jobs }
        ensures size { length result.words ≡ most_groups }
        ensures marked { (place : ℕ) → place < count → mark result.words place ≡ 1 }
        ensures others { (place : ℕ) → count ≤ place → mark result.words place ≡ 0 }
        ensures begin { (names : List ℕ) → count ≤ length names → chosen result.words names ≡ take count names }
    {
        let mut marks = Marks::none();
        for place in 0..count as usize {
            marks.set(place);
        }
        marks
    }

    /// Marks a place.
    #[inline(always)]
    pub fn set(&mut self, place: usize)
        requires { place < most_jobs }
        ensures size { length self.new.words ≡ most_groups }
        ensures same { mark self.new.words place ≡ 1 }
        ensures others { (other : ℕ) → other ≢ place → mark self.new.words other ≡ mark self.old.words other }
    {
        self.words[place / LANES] |= 1 << (place % LANES);
    }

    /// Takes away the mark of a place.
    #[inline(always)]
    pub fn clear(&mut self, place: usize)
        requires { place < most_jobs }
        ensures size { length self.new.words ≡ most_groups }
        ensures same { mark self.new.words place ≡ 0 }
        ensures others { (other : ℕ) → other ≢ place → mark self.new.words other ≡ mark self.old.words other }
        ensures parted { (names : List ℕ) → place < length names → mark self.old.words place ≡ 1 →
            (before : List ℕ) × (behind : List ℕ)
            × (chosen self.old.words names ≡ before ++ slice_index names place ∷ behind)
            × (chosen self.new.words names ≡ before ++ behind) }
    {
        self.words[place / LANES] &= !(1 << (place % LANES));
    }

    /// The word of a place.
    #[inline(always)]
    fn word(&self, place: usize) -> u16
        requires { place < most_jobs }
        ensures { result ≡ slice_index self.now.words (place / 16) }
    {
        self.words[place / LANES]
    }

    /// The first marked place from one on, of the places of so many words.
    #[inline(always)]
    pub fn next(&self, from: usize, words: usize) -> Option<usize>
        requires { words ≤ most_groups }
        ensures from { IfSome result (λ place. from ≤ place) }
        ensures within { IfSome result (λ place. place < words * 16) }
        ensures marked { IfSome result (λ place. mark self.now.words place ≡ 1) }
        ensures least { IfSome result (λ place. (other : ℕ) → from ≤ other → other < place →
            mark self.now.words other ≡ 0) }
        ensures none { IfNone result ((other : ℕ) → from ≤ other → other < words * 16 →
            mark self.now.words other ≡ 0) }
    {
        let end = words * LANES;
        let mut place = from;
        'words: while place < end {
            let rest = self.word(place) >> (place % LANES);
            if rest != 0 {
                return Some(place + rest.trailing_zeros() as usize);
            }
            place = place / LANES * LANES + LANES;
        }
        None
    }

    /// The first marked place of so many words.
    #[inline(always)]
    fn first_marked(&self, words: usize) -> Option<usize>
        requires { words ≤ most_groups }
        ensures within { IfSome result (λ place. place < words * 16) }
        ensures marked { IfSome result (λ place. mark self.now.words place ≡ 1) }
        ensures least { IfSome result (λ place. (other : ℕ) → other < place → mark self.now.words other ≡ 0) }
        ensures none { IfNone result ((other : ℕ) → other < words * 16 → mark self.now.words other ≡ 0) }
    {
        for group in 0..words {
            let word = self.words[group];
            if word != 0 {
                return Some(group * LANES + word.trailing_zeros() as usize);
            }
        }
        None
    }

    /// Takes the mark of the first marked place of so many words away. Returns the place.
    #[inline(always)]
    pub fn pop(&mut self, words: usize) -> Option<usize>
        requires { words ≤ most_groups }
        ensures size { length self.new.words ≡ most_groups }
        ensures within { IfSome result (λ place. place < words * 16) }
        ensures marked { IfSome result (λ place. mark self.old.words place ≡ 1) }
        ensures taken { IfSome result (λ place. mark self.new.words place ≡ 0) }
        ensures others { IfSome result (λ place. (other : ℕ) → other ≢ place →
            mark self.new.words other ≡ mark self.old.words other) }
        ensures kept { IfNone result (self.new ≡ self.old) }
        ensures fewer { (place : ℕ) → mark self.new.words place ≡ 1 → mark self.old.words place ≡ 1 }
        ensures first { IfSome result (λ place. (names : List ℕ) → length names ≡ words * 16 →
            chosen self.old.words names ≡ slice_index names place ∷ chosen self.new.words names) }
        ensures none { IfNone result ((names : List ℕ) → length names ≡ words * 16 →
            chosen self.old.words names ≡ []) }
    {
        let Some(first) = self.first_marked(words) else {
            return None;
        };
        self.clear(first);
        Some(first)
    }

    /// The same, where no place before one is marked.
    #[inline(always)]
    pub fn pop_from(&mut self, from: usize, words: usize) -> Option<usize>
        requires words { words ≤ most_groups }
        requires before { (place : ℕ) → place < from → mark self.old.words place ≡ 0 }
        ensures size { length self.new.words ≡ most_groups }
        ensures within { IfSome result (λ place. place < words * 16) }
        ensures marked { IfSome result (λ place. mark self.old.words place ≡ 1) }
        ensures taken { IfSome result (λ place. mark self.new.words place ≡ 0) }
        ensures others { IfSome result (λ place. (other : ℕ) → other ≢ place →
            mark self.new.words other ≡ mark self.old.words other) }
        ensures kept { IfNone result (self.new ≡ self.old) }
        ensures fewer { (place : ℕ) → mark self.new.words place ≡ 1 → mark self.old.words place ≡ 1 }
        ensures first { IfSome result (λ place. (names : List ℕ) → length names ≡ words * 16 →
            chosen self.old.words names ≡ slice_index names place ∷ chosen self.new.words names) }
        ensures none { IfNone result ((names : List ℕ) → length names ≡ words * 16 →
            chosen self.old.words names ≡ []) }
        ensures before { IfSome result (λ place. (other : ℕ) → other < place + 1 → mark self.new.words other ≡ 0) }
    {
        let Some(place) = self.next(from, words) else {
            return None;
        };
        self.clear(place);
        Some(place)
    }

    /// How many places of so many words are marked.
    #[inline(always)]
    pub fn count(&self, words: usize) -> u32
        requires { words ≤ most_groups }
        ensures { (names : List ℕ) → length names ≡ words * 16 →
            result ≡ length (chosen self.now.words names) }
    {
        let mut count = 0;
        for word in 0..words {
            count += self.words[word].count_ones();
        }
        count
    }
}
