//! What a heap of blocks is.

ghost use Rattle.std.specs.Prelude.{◌≡◌, ◌≢◌, ◌↔◌, ◌<◌, ◌+◌, ◌-◌, ◌^◌, ℕ, ℤ, pos, Bool, true, false, List, length};
ghost use Rattle.std.specs.Prelude.{IfOk, IfSome, IfNone, OnOk, OnErr, IsOk, slice_set, slice_index_or};
ghost use Rattle.std.specs.FinMap.{get, remove};
ghost use Rattle.std.specs.Borrow.{sem, Lends, Array, i64 as word_type};
ghost use Rattle.f3_live_blocks.specs.Blocks.{Live, IsLive, words_of, pins_of, with_taken, with_words, with_pins, written_over};
ghost use Rattle.f3_heap_laws.specs.Account.{used_by};
ghost use Rattle.f3_heap_laws.specs.Answers.{Answer, Full, Taken, Sizes, sizes};
ghost use Rattle.f3_heap.specs.Answers.{answer_of};

use crate::block_id::BlockId;

/// Why a block could not be taken.
#[derive(Clone, Copy, Debug, PartialEq, Eq)]
pub enum TakeFault {
    /// The heap has no room for it.
    Full,
    /// The host refused memory.
    Memory,
}

/// A pinned block cannot be given back.
#[derive(Clone, Copy, Debug, PartialEq, Eq)]
pub struct Pinned;

/// A heap: a finite map from its live blocks to their words and how often they are pinned.
///
/// Words are 64 bits, and a block's words are counted from 0. Each kind of heap has a rule of its own
/// which answers `take` may give. The rule sees what the heap keeps besides its blocks, the names and
/// lengths of the live blocks, and the words asked for, and nothing else.
pub trait Blocks {
    // the live blocks
    ghost blocks: { Self → Live };

    // what is kept besides them
    ghost Rest: { Type 0 };

    ghost kept: { Self → Rest };

    // the rule: whether this answer to a take of so many words is allowed
    ghost allows: { Rest → Sizes → ℕ → Answer → Type 0 };

    // what is kept after a take
    ghost spent: { Rest → Rest };

    // whether there is room for a block of so many words
    ghost has_room: { Self → ℕ → Bool };

    // the heap once these words were written to a block through `pair`
    ghost after_pair: { Self → ℕ → List ℤ → Self };

    /// Takes a new block of so many words, all zero, with no pins.
    ///
    /// # Errors
    ///
    /// `Full` exactly where `room` is false for the request, and `Memory` where the host refused
    /// memory, in a heap whose rule allows that. The blocks are then unchanged.
    fn take(&mut self, words: usize) -> Result<BlockId, TakeFault>
        ensures full { (result ≡ Err TakeFault.Full) ↔ (has_room self.old words ≡ false) }
        ensures fresh { IfOk result (λ b. get (blocks self.old) b ≡ None) }
        ensures taken { IfOk result (λ b. blocks self.new ≡ with_taken (blocks self.old) b words) }
        ensures refused { OnErr result (blocks self.new ≡ blocks self.old) }
        ensures allowed { allows (kept self.old) (sizes (blocks self.old)) words (answer_of result) }
        ensures kept { kept self.new ≡ spent (kept self.old) };

    /// Takes a new block as `take` does, where that is soon done: a heap may do so where it asks for no search and no call.
    ///
    /// `None` does not say that there is no room. The heap is then unchanged, and `take` tells.
    fn take_at_once(&mut self, words: usize) -> Option<BlockId>
        ensures room { IfSome result (λ b. has_room self.old words ≡ true) }
        ensures fresh { IfSome result (λ b. get (blocks self.old) b ≡ None) }
        ensures taken { IfSome result (λ b. blocks self.new ≡ with_taken (blocks self.old) b words) }
        ensures allowed { IfSome result (λ b. allows (kept self.old) (sizes (blocks self.old)) words (Taken b)) }
        ensures kept { IfSome result (λ b. kept self.new ≡ spent (kept self.old)) }
        ensures same { IfNone result (self.new ≡ self.old) };

    /// Gives a block back.
    ///
    /// # Errors
    ///
    /// `Pinned` exactly where the block has pins. The blocks are then unchanged.
    fn give(&mut self, block: BlockId) -> Result<(), Pinned>
        requires { IsLive (blocks self.old) block }
        ensures unpinned { IsOk result ↔ (pins_of (blocks self.old) block ≡ 0) }
        ensures given { OnOk result (blocks self.new ≡ remove (blocks self.old) block) }
        ensures refused { OnErr result (blocks self.new ≡ blocks self.old) }
        ensures kept { kept self.new ≡ kept self.old };

    /// Gives a block back as `give` does, where that is soon done, and tells whether it did.
    ///
    /// `false` does not say that the block has pins. The heap is then unchanged, and `give` tells.
    fn give_at_once(&mut self, block: BlockId) -> bool
        requires { IsLive (blocks self.old) block }
        ensures unpinned { result ≡ true → pins_of (blocks self.old) block ≡ 0 }
        ensures given { result ≡ true → blocks self.new ≡ remove (blocks self.old) block }
        ensures kept { result ≡ true → kept self.new ≡ kept self.old }
        ensures same { result ≡ false → self.new ≡ self.old };

    /// The number of words of a block.
    fn length(&self, block: BlockId) -> usize
        requires { IsLive (blocks self.now) block }
        ensures { result ≡ length (words_of (blocks self.now) block) };

    /// The word at a place of a block.
    fn read(&self, block: BlockId, at: usize) -> i64
        requires live { IsLive (blocks self.now) block }
        requires within { at < length (words_of (blocks self.now) block) }
        ensures { result ≡ slice_index_or (words_of (blocks self.now) block) at (pos 0) };

    /// Writes the word at a place of a block.
    fn write(&mut self, block: BlockId, at: usize, value: i64)
        requires live { IsLive (blocks self.old) block }
        requires within { at < length (words_of (blocks self.old) block) }
        ensures written { blocks self.new ≡ with_words (blocks self.old) block (slice_set (words_of (blocks self.old) block) at value) }
        ensures kept { kept self.new ≡ kept self.old };

    /// The words of one block to read, and those of another to write.
    fn pair(&mut self, from: BlockId, to: BlockId) -> (&[i64], &mut [i64])
        requires from_live { IsLive (blocks self.old) from }
        requires to_live { IsLive (blocks self.old) to }
        requires different { from ≢ to }
        ensures* writes_back { sem 𝓛 (Lends Self.row (Array word_type 0) self.entry result.1 (after_pair self.old to)) }
        ensures source { result.0.now ≡ words_of (blocks self.old) from }
        ensures target { result.1.now ≡ words_of (blocks self.old) to };

    /// Pins a block once more, so that it cannot be given back.
    fn pin(&mut self, block: BlockId)
        requires live { IsLive (blocks self.old) block }
        requires below { pins_of (blocks self.old) block < u64.MAX }
        ensures counted { blocks self.new ≡ with_pins (blocks self.old) block (pins_of (blocks self.old) block + 1) }
        ensures kept { kept self.new ≡ kept self.old };

    /// Takes one pin of a block away.
    fn unpin(&mut self, block: BlockId)
        requires live { IsLive (blocks self.old) block }
        requires pinned { 0 < pins_of (blocks self.old) block }
        ensures counted { blocks self.new ≡ with_pins (blocks self.old) block (pins_of (blocks self.old) block - 1) }
        ensures kept { kept self.new ≡ kept self.old };

    /// How often a block is pinned.
    fn pins(&self, block: BlockId) -> u64
        requires { IsLive (blocks self.now) block }
        ensures { result ≡ pins_of (blocks self.now) block };

    /// The words that the live blocks take together, each with its length, pin count and tag.
    fn used(&self) -> usize
        ensures { result ≡ used_by (blocks self.now) };

    /// Whether a block of so many words can be taken.
    fn room(&self, words: usize) -> bool
        ensures { result ≡ has_room self.now words };

    /// Each block has fewer than 2 to the 63 words, since the host's memory holds no more. A call does nothing, and only says so.
    fn blocks_are_short(&self)
        ensures { (b : ℕ) → length (words_of (blocks self.now) b) < 2 ^ 63 };

    // Full is allowed exactly where there is no room
    ghost refuses: { (s : Self) (w : ℕ) → allows (kept s) (sizes (blocks s)) w Full ↔ (has_room s w ≡ false) };

    // words that are written through `pair` change that block's words, and nothing that is kept
    ghost pair_keeps: { (s : Self) (b : ℕ) (ws : List ℤ) → kept (after_pair s b ws) ≡ kept s };

    ghost pair_writes: { (s : Self) (b : ℕ) (ws : List ℤ) → blocks (after_pair s b ws) ≡ with_words (blocks s) b (written_over (words_of (blocks s) b) ws) };
}
