// Sets of numbers below 128, in two words, by value.
#![tactic(auto)]

ghost use Rattle.std.specs.Prelude.{◌≡◌, not, ◌&&◌, ◌||◌, ℕ, ◌<◌, ◌≤◌, eqb};
ghost use Rattle.std.specs.Iterator.{at_most};
ghost use Rattle.base.specs.Below.{all_below};
ghost use Rattle.search_sets.specs.Set.{holds, FirstFrom, Takes, passing};

use std::ops::{BitAnd, BitOr, Sub};

// The members of a set are below this number: there is room for the operations of a record.
pub const BOUND: usize = 128;

#[derive(Clone, Copy, Debug, PartialEq, Eq)]
pub struct Set {
    pub lo: u64,
    pub hi: u64,
}

impl Set {
    pub const EMPTY: Set = Set { lo: 0, hi: 0 };

    pub fn has(self, i: usize) -> bool
        requires { i < 128 }
        ensures { result ≡ holds self.lo self.hi i }
    {
        if i < 64 {
            (self.lo >> i) % 2 == 1
        } else {
            (self.hi >> (i - 64)) % 2 == 1
        }
    }

    pub fn insert(self, i: usize) -> Set
        requires { i < 128 }
        ensures { (k : ℕ) → holds result.lo result.hi k ≡ (holds self.lo self.hi k || eqb k i) }
    {
        if i < 64 {
            Set {
                lo: self.lo | (1 << i),
                hi: self.hi,
            }
        } else {
            Set {
                lo: self.lo,
                hi: self.hi | (1 << (i - 64)),
            }
        }
    }

    // With a number below 128 where that is wanted.
    pub fn insert_if(self, i: usize, wanted: bool) -> Set
        ensures { (k : ℕ) → k < 128 → holds result.lo result.hi k ≡ (holds self.lo self.hi k || (wanted && eqb k i)) }
    {
        if wanted && i < BOUND {
            self.insert(i)
        } else {
            self
        }
    }

    pub fn is_subset(self, other: Set) -> bool
        ensures { result ≡ all_below 128 (λ (k : ℕ). not (holds self.lo self.hi k) || holds other.lo other.hi k) }
    {
        self.lo & other.lo == self.lo && self.hi & other.hi == self.hi
    }

    // The lowest member from `from` on.
    pub fn first_from(self, from: usize) -> Option<usize>
        requires { from ≤ 128 }
        ensures { FirstFrom (holds self.lo self.hi) from result }
    {
        if from < 64 {
            let w = self.lo >> from;
            if w != 0 {
                return Some(from + w.trailing_zeros() as usize);
            }
            if self.hi != 0 {
                return Some(64 + self.hi.trailing_zeros() as usize);
            }
            return None;
        }
        if from < BOUND {
            let v = self.hi >> (from - 64);
            if v != 0 {
                return Some(from + v.trailing_zeros() as usize);
            }
        }
        None
    }

    pub fn members(self) -> Members
        ensures { result.left ≡ self }
    {
        Members { left: self }
    }
}

// The members of both.
impl BitAnd for Set {
    type Output = Set;

    ghost bitand_gives = { λ a b r. (k : ℕ) → holds r.lo r.hi k ≡ (holds a.lo a.hi k && holds b.lo b.hi k) };

    fn bitand(self, other: Set) -> Set {
        Set {
            lo: self.lo & other.lo,
            hi: self.hi & other.hi,
        }
    }
}

// The members of either.
impl BitOr for Set {
    type Output = Set;

    ghost bitor_gives = { λ a b r. (k : ℕ) → holds r.lo r.hi k ≡ (holds a.lo a.hi k || holds b.lo b.hi k) };

    fn bitor(self, other: Set) -> Set {
        Set {
            lo: self.lo | other.lo,
            hi: self.hi | other.hi,
        }
    }
}

// The members of the first that are not members of the second.
impl Sub for Set {
    type Output = Set;

    ghost sub_gives = { λ a b r. (k : ℕ) → holds r.lo r.hi k ≡ (holds a.lo a.hi k && not (holds b.lo b.hi k)) };

    fn sub(self, other: Set) -> Set {
        Set {
            lo: self.lo ^ (self.lo & other.lo),
            hi: self.hi ^ (self.hi & other.hi),
        }
    }
}

// The members of a set that are left, the lowest first.
#[derive(Clone, Drop)]
pub struct Members {
    pub left: Set,
}

impl Iterator for Members {
    type Item = usize;

    ghost next_gives = { λ s r t. Takes s.left.lo s.left.hi r t.left.lo t.left.hi };

    ghost remaining = { λ s. at_most (passing 128 (holds s.left.lo s.left.hi)) };

    fn next(&mut self) -> Option<usize> {
        let Set { lo, hi } = self.left;
        if lo != 0 {
            self.left.lo = lo & (lo - 1);
            return Some(lo.trailing_zeros() as usize);
        }
        if hi != 0 {
            self.left.hi = hi & (hi - 1);
            return Some(64 + hi.trailing_zeros() as usize);
        }
        None
    }
}
