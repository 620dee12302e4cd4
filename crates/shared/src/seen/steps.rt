//! The atomic steps of `place`, and its way along a probe path.
ghost use Rattle.std.specs.Prelude.{◌≡◌, ◌≢◌, ℕ, ◌+◌, ◌<◌, ◌≤◌, ◌↔◌, ◌++◌, ◌∷◌, [], true, length, min, slice_index, slice_set, map, IfSome, IfNone};
ghost use Rattle.shared.specs.Classes.{classes_of, start_of};
ghost use Rattle.shared.specs.SeenRule.{along, with_known, with_first, with_lower, AreAlike, HasClass, KnowsClass, OneWordEach, Met, IsSameSeat};
ghost use Rattle.shared.specs.SeenSeats.{view, items_of, words_of, IsSeatOf};

use super::plays::{Lower, Try};
use super::{Seen, SeenSeat};
use std::hash::{FoldHasher, Hash, Hasher};

impl<'a, S: Eq + Hash> Seen<'a, S> {
    // The word at which the probe path of an item begins.
    fn start_of(&self, index: usize) -> usize
        requires { index < length (items_of self.now) }
        ensures is { result ≡ slice_index (map (start_of S.hash_input (words_of self.now)) (items_of self.now)) index }
        ensures low { result < words_of self.now }
    {
        let mut hasher = FoldHasher::default();
        self.items[index].hash(&mut hasher);
        (hasher.finish() % self.words as u64) as usize
    }

    fn are_equal(&self, one: usize, other: usize) -> bool
        requires { (one < length (items_of self.now)) × (other < length (items_of self.now)) }
        ensures { (result ≡ true) ↔ AreAlike (classes_of S.eq (items_of self.now)) one other }
    {
        self.items[one] == self.items[other]
    }

    // Puts the position into the word if it is free, and gives the word as it was.
    fn try_word(&self, seat: &mut SeenSeat, word: usize, index: usize, way: usize) -> u64
        requires own { IsSeatOf S.eq self.now seat.old }
        requires index { index < length (items_of self.now) }
        requires near { way < words_of self.now }
        requires there { word ≡ along (words_of self.now) (slice_index (map (start_of S.hash_input (words_of self.now)) (items_of self.now)) index) way }
        requires full { (t : ℕ) → t < way → (j : ℕ) × (slice_index (view seat.old).known (along (words_of self.now) (slice_index (map (start_of S.hash_input (words_of self.now)) (items_of self.now)) index) t) ≡ j + 1) × ¬ (AreAlike (view seat.old).classes j index) }
        ensures own { IsSeatOf S.eq self.now seat.new }
        ensures free { result ≡ 0 → (view seat.new ≡ with_first (view seat.old) word index) × (slice_index (view seat.new).known word ≡ index + 1) × ((x : ℕ) → Met (view seat.old) x → ¬ (AreAlike (view seat.old).classes x index)) }
        ensures taken { (j : ℕ) → result ≡ j + 1 → (j < length (items_of self.now)) × (view seat.new ≡ with_known (view seat.old) word j) × (slice_index (view seat.new).known word ≡ j + 1) }
        ensures one_word { OneWordEach (view seat.new).classes (view seat.new).known }
    {
        self.table
            .shared
            .compare_exchange::<Try>(&mut seat.seat, word, 0, index as u64 + 1)
    }

    // Puts the position to a word that has its class, and gives the lesser of it and the position found.
    pub(super) fn lower(&self, seat: &mut SeenSeat, word: usize, index: usize) -> u64
        requires own { IsSeatOf S.eq self.now seat.old }
        requires index { index < length (items_of self.now) }
        requires class { HasClass (view seat.old).classes (view seat.old).known word index }
        requires word { word < words_of self.now }
        ensures own { IsSeatOf S.eq self.now seat.new }
        ensures lowered { (k : ℕ) × (k < length (items_of self.now)) × AreAlike (view seat.old).classes k index × (result ≡ min k index) × (view seat.new ≡ with_lower (view seat.old) index k) × ((x : ℕ) → Met (view seat.old) x → AreAlike (view seat.old).classes x index → k ≤ x) }
        ensures one_word { OneWordEach (view seat.new).classes (view seat.new).known }
        ensures known { (view seat.new).known ≡ (view seat.old).known }
    {
        let found = self
            .table
            .shared
            .fetch_min::<Lower>(&mut seat.seat, word, index as u64 + 1);
        found.min(index as u64 + 1) - 1
    }

    // Goes along the probe path to the word of the position's class, if it has one. If it has none, the position is put into the first free word.
    pub(super) fn search(&self, seat: &mut SeenSeat, index: usize) -> Option<usize>
        requires own { IsSeatOf S.eq self.now seat.old }
        requires index { index < length (items_of self.now) }
        ensures own { IsSeatOf S.eq self.now seat.new }
        ensures kept { IsSameSeat (view seat.old) (view seat.new) }
        ensures steps { (view seat.new).steps ≤ (view seat.old).steps + words_of self.now }
        ensures one_word { OneWordEach (view seat.new).classes (view seat.new).known }
        ensures known { KnowsClass (view seat.new) index }
        ensures free { IfNone result (((view seat.new).placed ≡ (view seat.old).placed ++ index ∷ []) × ((view seat.new).answered ≡ (view seat.old).answered ++ index ∷ []) × ((x : ℕ) → Met (view seat.old) x → ¬ (AreAlike (view seat.old).classes x index))) }
        ensures taken { IfSome result (λ word. (word < words_of self.now) × HasClass (view seat.new).classes (view seat.new).known word index × ((view seat.new).placed ≡ (view seat.old).placed) × ((view seat.new).answered ≡ (view seat.old).answered)) }
    {
        let mut word = self.start_of(index);
        for way in 0..self.words {
            let found = self.try_word(seat, word, index, way);
            if found == 0 {
                return None;
            }
            if self.are_equal(found as usize - 1, index) {
                return Some(word);
            }
            word = if word + 1 == self.words { 0 } else { word + 1 };
        }
        unreachable!()
    }
}
