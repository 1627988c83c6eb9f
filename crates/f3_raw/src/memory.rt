//! The memory behind a region, through raw pointers. Each function here is proved by hand.
ghost use Rattle.std.specs.Prelude.{◌≡◌, ℕ, ◌+◌, ◌*◌, ◌^◌, ◌<◌, ◌≤◌, ℤ, pos, List, [], ◌∷◌, ◌++◌, length, replicate, slice_range, IfSome};
ghost use Rattle.std.specs.Borrow.{sem};
ghost use denote.RawPtr.{Ptr};
ghost use Rattle.f3_raw.specs.Words.{Apart};
ghost use Rattle.f3_raw.specs.Ownership.{memory_owns, memory_shares, words_type};

use std::alloc::Allocator;
use std::marker::{Model, PhantomData};
use std::slice;

/// Room for `size` words, of which the first are `content`.
pub(crate) struct Memory {
    start: *mut i64,
    ghost size: { ℕ },
    ghost content: { List ℤ },
    ghost fits: { length content ≤ size },
    ghost small: { size * 8 < 2 ^ 63 },
}

impl Model for Memory {
    ghost also_owns = { λ m. memory_owns m.start m.size m.content };

    ghost also_shares = { λ m _ κ. memory_shares m.start m.content κ };
}

/// The right to give the memory back.
pub(crate) struct Lease<A: Allocator> {
    marker: PhantomData<A>,
    ghost alloc: { A },
    ghost start: { Ptr },
    ghost size: { ℕ },
}

impl<A: Allocator> Model for Lease<A> {
    ghost also_owns = { λ l. A.dealloc_token l.alloc (words_type l.size) l.start };
}

impl Memory {
    ghost use Rattle.f3_raw.specs.Memory.{lends_words};

    pub(crate) fn new<A: Allocator>(alloc: &A, words: usize) -> Option<(Memory, Lease<A>)>
        requires { words * 8 < 2 ^ 63 }
        ensures { IfSome result (λ m. (m.0.size ≡ words) × (m.0.content ≡ []) × (m.1.alloc ≡ alloc.now) × (m.1.start ≡ m.0.start) × (m.1.size ≡ words)) }
    {
        match alloc.allocate(words * 8, 8) {
            Ok(block) => {
                let start = block as *mut i64;
                let marker = PhantomData;
                Some((Memory { start }, Lease { marker }))
            }
            Err(_) => None,
        }
    }

    pub(crate) fn free<A: Allocator>(self, lease: Lease<A>, alloc: &A, words: usize)
        requires { (lease.alloc ≡ alloc.now) × (lease.start ≡ self.start) × (lease.size ≡ words) × (self.size ≡ words) }
    {
        let Memory { start } = self;
        let Lease { marker: _ } = lease;
        unsafe { alloc.deallocate(start as *mut u8, words * 8, 8) }
    }

    /// The words, which are `len`.
    #[inline]
    pub(crate) fn words(&self, len: usize) -> &[i64]
        requires { len ≡ length self.now.content }
        ensures { result.now ≡ self.now.content }
    {
        unsafe { slice::from_raw_parts(self.start, len) }
    }

    /// One more word, after the `len` that lie there.
    #[inline]
    pub(crate) fn append(&mut self, len: usize, word: i64)
        requires { (len ≡ length self.old.content) × (len < self.old.size) }
        ensures words { self.new.content ≡ self.old.content ++ word ∷ [] }
        ensures place { (self.new.size ≡ self.old.size) × (self.new.start ≡ self.old.start) }
    {
        unsafe { self.start.add(len).write(word) }
    }

    /// `n` zeros, after the `len` words that lie there.
    pub(crate) fn append_zeros(&mut self, len: usize, n: usize)
        requires { (len ≡ length self.old.content) × (len + n ≤ self.old.size) }
        ensures words { self.new.content ≡ self.old.content ++ replicate n (pos 0) }
        ensures place { (self.new.size ≡ self.old.size) × (self.new.start ≡ self.old.start) }
    {
        unsafe {
            let first = self.start.add(len);
            let mut i = 0;
            while i < n {
                first.add(i).write(0);
                i += 1;
            }
        }
    }

    /// The `n` words from `from` on once more, after the `len` words that lie there.
    pub(crate) fn append_run(&mut self, len: usize, from: usize, n: usize)
        requires { (len ≡ length self.old.content) × (from + n ≤ len) × (len + n ≤ self.old.size) }
        ensures words { self.new.content ≡ self.old.content ++ slice_range self.old.content from (from + n) }
        ensures place { (self.new.size ≡ self.old.size) × (self.new.start ≡ self.old.start) }
    {
        unsafe {
            let source = self.start.add(from);
            let target = self.start.add(len);
            let mut i = 0;
            while i < n {
                target.add(i).write(source.add(i).read());
                i += 1;
            }
        }
    }

    /// The `n` words from `a` on to read, and the `m` words from `b` on to write.
    #[inline]
    pub(crate) fn pair(&mut self, a: usize, n: usize, b: usize, m: usize) -> (&[i64], &mut [i64])
        requires below { (a + n ≤ length self.old.content) × (b + m ≤ length self.old.content) }
        requires apart { Apart a n b m }
        ensures* lends { sem 𝓛 (lends_words self.entry b m result.1) }
        ensures first { result.0.now ≡ slice_range self.old.content a (a + n) }
        ensures second { result.1.now ≡ slice_range self.old.content b (b + m) }
    {
        unsafe {
            let first = slice::from_raw_parts(self.start.add(a), n);
            let second = slice::from_raw_parts_mut(self.start.add(b), m);
            (first, second)
        }
    }
}
