// Sets of huts.
#![tactic(auto)]

ghost use Rattle.std.specs.Prelude.{◌≡◌, ℕ, ◌<◌, ◌≤◌, false, ◌&&◌, ◌||◌, ◌==◌, nat_lt};
ghost use Rattle.sets.specs.Set.{in_set, LowestMissing, Meets, NextHut, huts_from, huts_left};
ghost use Rattle.sets.specs.Word.{LowestTold};

// How many words a set has.
const WORDS: usize = 16;

// How many huts they have bits for.
const HUTS: usize = 64 * WORDS;

// A set of huts as bits of words: hut k is bit k % 64 of word k / 64.
#[derive(Clone, Copy)]
pub struct HutSet {
    words: [u64; WORDS],
}

// The lowest hut from `from` on whose bit is set in the words that `word` gives: what is left of the first word, then whole words.
fn lowest_in<F: Fn(usize) -> u64>(from: usize, word: F) -> Option<usize>
    requires callable { (i : ℕ) → i < 16 → F.pre word i }
    requires steady { (i v w : ℕ) → i < 16 → F.post word i v → F.post word i w → v ≡ w }
    ensures { LowestTold (F.post word) from result }
{
    if from >= HUTS {
        return None;
    }
    let first = from / 64;
    let left = word(first) >> (from % 64);
    if left != 0 {
        return Some(from + left.trailing_zeros() as usize);
    }
    let marked = |i: &usize|
        requires { F.pre word i.now }
    { word(*i) != 0 };
    let next = (first + 1..WORDS).find(marked)?;
    Some(64 * next + word(next).trailing_zeros() as usize)
}

impl HutSet {
    // No hut.
    pub fn none() -> HutSet
        ensures { (k : ℕ) → in_set result k ≡ false }
    {
        HutSet { words: [0; WORDS] }
    }

    // Just the hut; from 1,024 on there is none.
    pub fn only(hut: usize) -> HutSet
        ensures { (k : ℕ) → in_set result k ≡ (hut == k && nat_lt k 1024) }
    {
        let mut huts = HutSet::none();
        huts.insert(hut);
        huts
    }

    // One hut more; from 1,024 on there is none to put in.
    pub fn insert(&mut self, hut: usize)
        ensures { (k : ℕ) → in_set self.new k ≡ ((hut == k && nat_lt k 1024) || in_set self.old k) }
    {
        if hut < HUTS {
            self.words[hut / 64] |= 1 << (hut % 64);
        }
    }

    // The huts of both sets.
    pub fn union(&self, other: &HutSet) -> HutSet
        ensures { (k : ℕ) → in_set result k ≡ (in_set self.now k || in_set other.now k) }
    {
        HutSet {
            words: std::array::from_fn(|i| self.words[i] | other.words[i]),
        }
    }

    // Whether the hut is in the set.
    pub fn has(&self, hut: usize) -> bool
        ensures { result ≡ in_set self.now hut }
    {
        hut < HUTS && (self.words[hut / 64] >> (hut % 64)) % 2 == 1
    }

    // The lowest hut below n that is not in the set; from 1,024 on none is in it.
    pub fn lowest_missing(&self, n: usize) -> Option<usize>
        ensures { LowestMissing n self.now result }
    {
        let hut = lowest_in(0, |i| !self.words[i]).unwrap_or(HUTS);
        (hut < n).then_some(hut)
    }

    // Whether some hut from `from` on is in both sets.
    pub fn meets(&self, other: &HutSet, from: usize) -> bool
        ensures { Meets self.now other.now from result }
    {
        lowest_in(from, |i| self.words[i] & other.words[i]).is_some()
    }

    // The lowest hut of the set from `from` on.
    pub fn next(&self, from: usize) -> Option<usize>
        ensures { NextHut self.now from result }
    {
        lowest_in(from, |i| self.words[i])
    }

    // The huts of the set from `from` on, rising.
    pub fn huts(&self, from: usize) -> Huts<'_>
        ensures { huts_left result ≡ huts_from self.now from }
    {
        Huts { set: self, from }
    }
}

// The huts of a set from one on, rising.
#[derive(Drop)]
pub struct Huts<'a> {
    set: &'a HutSet,
    from: usize,
}

impl Iterator for Huts<'_> {
    ghost use Rattle.std.specs.Iterator.{YieldsFirst, item_count};

    type Item = usize;

    ghost next_gives = { YieldsFirst huts_left };

    ghost remaining = { item_count huts_left };

    fn next(&mut self) -> Option<usize> {
        let hut = self.set.next(self.from)?;
        self.from = hut + 1;
        Some(hut)
    }
}
