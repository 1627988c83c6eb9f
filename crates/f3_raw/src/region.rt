//! The region: a list of words below a frontier, and a size.
ghost use Rattle.std.specs.Prelude.{◌≡◌, ◌+◌, ◌-◌, ◌*◌, ◌^◌, ◌<◌, ◌≤◌, ℤ, pos, [], ◌∷◌, ◌++◌, length, replicate, slice_index_or, slice_range, IfOk, IsErr};
ghost use Rattle.std.specs.Borrow.{sem};
ghost use Rattle.f3_raw.specs.Words.{written, Apart};

use crate::memory::{Lease, Memory};
use std::alloc::{AllocError, Global};

/// One allocation of 64-bit words, given back when it is dropped. The words below the frontier
/// are written, those at and above it are uninitialized. Places, runs and sizes count words from 0.
pub struct Region {
    memory: Memory,
    frontier: usize,
    size: usize,
    lease: Lease<Global>,
    alloc: Global,
    ghost ok: { (frontier ≡ length memory.content) × (size ≡ memory.size) },
    ghost leased: { (lease.alloc ≡ alloc) × (lease.start ≡ memory.start) × (lease.size ≡ size) },
}

impl Region {
    ghost use Rattle.f3_raw.specs.Region.{region_words, region_size, lends_run};

    /// A region of `words` words, none of them written.
    ///
    /// # Errors
    /// `AllocError` where the memory was refused, and for a size that no allocation can have.
    pub fn new(alloc: Global, words: usize) -> Result<Region, AllocError>
        ensures size { IfOk result (λ r. region_size r ≡ words) }
        ensures words { IfOk result (λ r. region_words r ≡ []) }
        ensures too_large { 2 ^ 63 ≤ words * 8 → IsErr result }
    {
        if words > isize::MAX as usize / 8 {
            return Err(AllocError);
        }
        let Some((memory, lease)) = Memory::new(&alloc, words) else {
            return Err(AllocError);
        };
        Ok(Region {
            memory,
            frontier: 0,
            size: words,
            lease,
            alloc,
        })
    }

    /// The size in words.
    #[inline]
    pub fn words(&self) -> usize
        ensures { result ≡ region_size self.now }
    {
        self.size
    }

    /// How many words are written: those from 0 up to here.
    #[inline]
    pub fn frontier(&self) -> usize
        ensures value { result ≡ length (region_words self.now) }
        ensures fits { result ≤ region_size self.now }
    {
        self.frontier
    }

    /// The word at `i`, below the frontier.
    #[inline]
    pub fn get(&self, i: usize) -> i64
        requires { i < length (region_words self.now) }
        ensures { result ≡ slice_index_or (region_words self.now) i (pos 0) }
    {
        self.memory.words(self.frontier)[i]
    }

    /// Puts `word` at `i`, at or below the frontier, which rises by one where `i` is the frontier.
    #[inline]
    pub fn set(&mut self, i: usize, word: i64)
        requires reached { i ≤ length (region_words self.old) }
        requires inside { i < region_size self.old }
        ensures words { region_words self.new ≡ written (region_words self.old) i (word ∷ []) }
        ensures size { region_size self.new ≡ region_size self.old }
    {
        if i < self.frontier {
            self.put(i, word);
        } else {
            self.append(word);
        }
    }

    /// Puts `word` at `i`, below the frontier: a plain store.
    #[inline]
    pub fn put(&mut self, i: usize, word: i64)
        requires { i < length (region_words self.old) }
        ensures words { region_words self.new ≡ written (region_words self.old) i (word ∷ []) }
        ensures size { region_size self.new ≡ region_size self.old }
    {
        let (_, run) = self.memory.pair(0, 0, i, 1);
        run[0] = word;
    }

    /// The word at `i` of the run from `base` on, below the frontier. Where `base` stays the same in a loop, LLVM makes the place of the
    /// run once, and reads a word by `i` alone.
    #[inline]
    pub fn get_from(&self, base: usize, i: usize) -> i64
        requires { base + i < length (region_words self.now) }
        ensures { result ≡ slice_index_or (region_words self.now) (base + i) (pos 0) }
    {
        self.memory.words(self.frontier)[base..][i]
    }

    /// Puts `word` at `i` of the run from `base` on, below the frontier.
    #[inline]
    pub fn put_from(&mut self, base: usize, i: usize, word: i64)
        requires { base + i < length (region_words self.old) }
        ensures words { region_words self.new ≡ written (region_words self.old) (base + i) (word ∷ []) }
        ensures size { region_size self.new ≡ region_size self.old }
    {
        let (_, run) = self.memory.pair(0, 0, base, self.frontier - base);
        run[i] = word;
    }

    /// Puts `word` at the frontier, which rises by one.
    #[inline]
    fn append(&mut self, word: i64)
        requires { length (region_words self.old) < region_size self.old }
        ensures words { region_words self.new ≡ region_words self.old ++ word ∷ [] }
        ensures size { region_size self.new ≡ region_size self.old }
    {
        self.memory.append(self.frontier, word);
        self.frontier += 1;
    }

    /// Writes 0 to the `n` words from `from` on, and raises the frontier where they end above it.
    pub fn clear(&mut self, from: usize, n: usize)
        requires reached { from ≤ length (region_words self.old) }
        requires inside { from + n ≤ region_size self.old }
        ensures words { region_words self.new ≡ written (region_words self.old) from (replicate n (pos 0)) }
        ensures size { region_size self.new ≡ region_size self.old }
    {
        let below = self.frontier - from;
        if n <= below {
            self.fill_below(from, n);
            return;
        }
        self.fill_below(from, below);
        self.append_zeros(n - below);
    }

    fn fill_below(&mut self, from: usize, n: usize)
        requires { from + n ≤ length (region_words self.old) }
        ensures words { region_words self.new ≡ written (region_words self.old) from (replicate n (pos 0)) }
        ensures size { region_size self.new ≡ region_size self.old }
    {
        let (_, run) = self.memory.pair(0, 0, from, n);
        run.fill(0);
    }

    fn append_zeros(&mut self, n: usize)
        requires { length (region_words self.old) + n ≤ region_size self.old }
        ensures words { region_words self.new ≡ region_words self.old ++ replicate n (pos 0) }
        ensures size { region_size self.new ≡ region_size self.old }
    {
        self.memory.append_zeros(self.frontier, n);
        self.frontier += n;
    }

    /// Copies the `n` words from `from` on to the places from `to` on, and raises the frontier
    /// where they end above it. Where the two runs meet, the old words of the source are copied.
    pub fn copy(&mut self, from: usize, to: usize, n: usize)
        requires source { from + n ≤ length (region_words self.old) }
        requires reached { to ≤ length (region_words self.old) }
        requires inside { to + n ≤ region_size self.old }
        ensures words { region_words self.new ≡ written (region_words self.old) to (slice_range (region_words self.old) from (from + n)) }
        ensures size { region_size self.new ≡ region_size self.old }
    {
        // What lies above the frontier goes first, since the rest may be written over the source.
        let below = n.min(self.frontier - to);
        self.append_run(from + below, n - below);
        self.copy_below(from, to, below);
    }

    fn append_run(&mut self, from: usize, n: usize)
        requires source { from + n ≤ length (region_words self.old) }
        requires inside { length (region_words self.old) + n ≤ region_size self.old }
        ensures words { region_words self.new ≡ region_words self.old ++ slice_range (region_words self.old) from (from + n) }
        ensures size { region_size self.new ≡ region_size self.old }
    {
        self.memory.append_run(self.frontier, from, n);
        self.frontier += n;
    }

    fn copy_below(&mut self, from: usize, to: usize, n: usize)
        requires source { from + n ≤ length (region_words self.old) }
        requires target { to + n ≤ length (region_words self.old) }
        ensures words { region_words self.new ≡ written (region_words self.old) to (slice_range (region_words self.old) from (from + n)) }
        ensures size { region_size self.new ≡ region_size self.old }
    {
        let (_, words) = self.memory.pair(0, 0, 0, self.frontier);
        words.copy_within(from..from + n, to);
    }

    /// The `n` words from `a` on to read, and the `m` words from `b` on to write. The two runs lie
    /// below the frontier and do not meet.
    #[inline]
    pub fn pair(&mut self, a: usize, n: usize, b: usize, m: usize) -> (&[i64], &mut [i64])
        requires first { a + n ≤ length (region_words self.old) }
        requires second { b + m ≤ length (region_words self.old) }
        requires apart { Apart a n b m }
        ensures* lends { sem 𝓛 (lends_run self.entry b m result.1) }
        ensures first { result.0.now ≡ slice_range (region_words self.old) a (a + n) }
        ensures second { result.1.now ≡ slice_range (region_words self.old) b (b + m) }
    {
        self.memory.pair(a, n, b, m)
    }
}

impl Drop for Region {
    fn drop(self) {
        let Region {
            memory,
            frontier: _,
            size,
            lease,
            alloc,
        } = self;
        memory.free(lease, &alloc, size)
    }
}
