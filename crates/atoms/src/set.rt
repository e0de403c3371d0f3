// A set of atoms, by value. A number past 319 is in no set, and inserting it changes nothing.
ghost use Rattle.std.specs.Prelude.{◌≡◌, ℕ, ◌<◌, Decides, nat_lt, slice_index};
ghost use Rattle.planning.specs.Sets.{none, ◌∪◌, ◌∩◌, ◌∖◌, ◌⊆◌, Under, count, lowest, greatest, same_below};
ghost use Rattle.atoms.specs.Has.{has, only_atom};
ghost use Rattle.std.specs.Cmp.{partial_equiv_from_equiv, on_equiv};
ghost use Rattle.std.specs.Ordering.{on};
ghost use Rattle.planning.proofs.Same.{same_equivalence};

use std::array;

// Clauses read it by `has`, and not by an `impl Model`: a function has no code, and the library's finite sets would be no plainer.
#[derive(Clone, Copy, Debug, Default)]
pub struct Atoms {
    // atom p is digit p % 64 of word p / 64
    words: [u64; 5],
}

impl Atoms {
    pub fn empty() -> Atoms
        ensures { has result ≡ none }
    {
        Atoms { words: [0; 5] }
    }

    // The atoms 0 to 319.
    pub fn all() -> Atoms
        ensures { has result ≡ (λ p. nat_lt p 320) }
    {
        Atoms {
            words: [u64::MAX; 5],
        }
    }

    pub fn contains(self, p: u16) -> bool
        ensures tells { result ≡ has self p }
        ensures under { Under 320 (has self) }
    {
        p < 320 && self.words[usize::from(p / 64)] >> (p % 64) & 1 == 1
    }

    pub fn insert(self, p: u16) -> Atoms
        ensures { has result ≡ has self ∪ only_atom p }
    {
        let mut words = self.words;
        if p < 320 {
            words[usize::from(p / 64)] |= 1 << (p % 64);
        }
        Atoms { words }
    }

    // The set each of whose words is `op` of the two words in its place.
    fn by_word<F: Fn(u64, u64) -> u64>(self, other: Atoms, op: F) -> Atoms
        requires { F.IsAlwaysCallable op }
        ensures { (i : ℕ) → i < 5 → F.post op (slice_index self.words i) (slice_index other.words i) (slice_index result.words i) }
    {
        Atoms {
            words: array::from_fn(|i| op(self.words[i], other.words[i])),
        }
    }

    pub fn union(self, other: Atoms) -> Atoms
        ensures { has result ≡ has self ∪ has other }
    {
        self.by_word(other, |a, b| a | b)
    }

    pub fn intersection(self, other: Atoms) -> Atoms
        ensures { has result ≡ has self ∩ has other }
    {
        self.by_word(other, |a, b| a & b)
    }

    pub fn minus(self, other: Atoms) -> Atoms
        ensures { has result ≡ has self ∖ has other }
    {
        self.by_word(other, |a, b| a & !b)
    }

    // Here and below each `as u16` is shown to fit; `try_from` would add a case that never comes.
    pub fn count(self) -> u16
        ensures { result ≡ count (has self) 320 }
    {
        self.words.iter().map(|w| w.count_ones() as u16).sum()
    }

    pub fn lowest(self) -> Option<u16>
        ensures { result ≡ lowest (has self) 320 }
    {
        let i = self.words.iter().position(|w| *w != 0)?;
        Some(i as u16 * 64 + self.words[i].trailing_zeros() as u16)
    }

    pub fn greatest(self) -> Option<u16>
        ensures { result ≡ greatest (has self) 320 }
    {
        let i = self.words.iter().rposition(|w| *w != 0)?;
        Some(i as u16 * 64 + 63 - self.words[i].leading_zeros() as u16)
    }

    pub fn is_empty(self) -> bool
        ensures { Decides result (has self ≡ none) }
    {
        self.lowest().is_none()
    }

    pub fn is_subset(self, other: Atoms) -> bool
        ensures { Decides result (has self ⊆ has other) }
    {
        self.minus(other).is_empty()
    }
}

// Two sets are equal if they have the same atoms. By hand, since a derived `eq` would not promise `decided`.
impl PartialEq for Atoms {
    ghost eq = { on has (same_below 320) };

    ghost laws = { partial_equiv_from_equiv (on_equiv has (same_equivalence 320)) };

    fn eq(&self, other: &Atoms) -> bool
        ensures computed { result ≡ same_below 320 (has self.now) (has other.now) }
        ensures decided { Decides result (has self.now ≡ has other.now) }
    {
        self.is_subset(*other) && other.is_subset(*self)
    }
}

// By hand: a derive is not proved without this same law, written in a block of its own.
impl Eq for Atoms {
    ghost laws = { on_equiv has (same_equivalence 320) };
}
