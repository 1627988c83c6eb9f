//! Blocks with given words.

ghost use Rattle.std.specs.Prelude.{◌≡◌, ℕ, None, pos};
ghost use Rattle.std.specs.FinMap.{get};
ghost use Rattle.f3_live_blocks.specs.Blocks.{IsLive, words_of};

use f3_heap::{BlockId, Blocks};
use std::process::Abort;

/// A new block of these words.
pub(crate) fn block_with<B: Blocks>(rt: &impl Abort, heap: &mut B, words: &[i64]) -> BlockId
    ensures fresh { get (B.blocks heap.old) result ≡ None }
    ensures live { IsLive (B.blocks heap.new) result }
    ensures words { words_of (B.blocks heap.new) result ≡ words.now }
    ensures kept { (q : ℕ) → IsLive (B.blocks heap.old) q → get (B.blocks heap.new) q ≡ get (B.blocks heap.old) q }
{
    let block = heap.take(words.len()).expect(rt, "room for the words");
    for (at, word) in words.iter().enumerate() {
        heap.write(block, at, *word);
    }
    block
}

/// Whether a block has these words and no more.
pub(crate) fn has_words<B: Blocks>(heap: &B, block: BlockId, words: &[i64]) -> bool
    requires { IsLive (B.blocks heap.now) block }
{
    if heap.length(block) != words.len() {
        return false;
    }
    for (at, word) in words.iter().enumerate() {
        if heap.read(block, at) != *word {
            return false;
        }
    }
    true
}
