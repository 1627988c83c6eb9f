//! A heap that refuses once.

ghost use Rattle.std.specs.Prelude.{◌≡◌, ◌↔◌, ℕ, cond, nat_eq, false, IfOk, OnErr};
ghost use Rattle.std.specs.FinMap.{get};
ghost use Rattle.std.proofs.Common.{ap};
ghost use Rattle.f3_live_blocks.specs.Blocks.{with_taken};
ghost use Rattle.f3_heap_laws.specs.Answers.{sizes};
ghost use Rattle.f3_heap_laws.specs.Rules.{FullAtAllows, full_at_spent};
ghost use Rattle.f3_heap_laws.proofs.Refusals.{full_at_refuses};
ghost use Rattle.f3_heap.specs.Answers.{answer_of};
ghost use Rattle.f3_heap.specs.FullAt.{behind, refused_take, with_behind};

use crate::block_id::BlockId;
use crate::blocks::{Blocks, Pinned, TakeFault};

/// A heap whose take number `at`, counted from 1, is refused. All else goes to the blocks behind it.
#[derive(Drop)]
pub struct FullAt<B: Blocks> {
    blocks: B,
    at: u64,
}

impl<B: Blocks> FullAt<B> {
    /// Refuses take number `at` from now on, or none of its own where `at` is 0.
    pub fn new(blocks: B, at: u64) -> FullAt<B>
        ensures heap { behind result ≡ blocks }
        ensures count { refused_take result ≡ at }
    {
        FullAt { blocks, at }
    }
}

impl<B: Blocks> Blocks for FullAt<B> {
    ghost blocks = { λ s. B.blocks (behind s) };

    ghost Rest = { ℕ × B.Rest };

    ghost kept = { λ s. (refused_take s, B.kept (behind s)) };

    ghost allows = { FullAtAllows B.allows };

    ghost spent = { full_at_spent B.spent };

    ghost has_room = { λ s w. cond (nat_eq (refused_take s) 1) false (B.has_room (behind s) w) };

    ghost after_pair = { λ s b ws. with_behind s (B.after_pair (behind s) b ws) };

    fn take(&mut self, words: usize) -> Result<BlockId, TakeFault>
        ensures full { (result ≡ Err TakeFault.Full) ↔ (cond (nat_eq (refused_take self.old) 1) false (B.has_room (behind self.old) words) ≡ false) }
        ensures fresh { IfOk result (λ b. get (B.blocks (behind self.old)) b ≡ None) }
        ensures taken { IfOk result (λ b. B.blocks (behind self.new) ≡ with_taken (B.blocks (behind self.old)) b words) }
        ensures refused { OnErr result (B.blocks (behind self.new) ≡ B.blocks (behind self.old)) }
        ensures allowed { FullAtAllows B.allows (refused_take self.old, B.kept (behind self.old))
            (sizes (B.blocks (behind self.old))) words (answer_of result) }
        ensures kept { ◌≡◌ {A = ℕ × B.Rest}
            (refused_take self.new, B.kept (behind self.new))
            (full_at_spent B.spent (refused_take self.old, B.kept (behind self.old))) }
        ensures alone { refused_take self.old ≡ 1 → behind self.new ≡ behind self.old }
    {
        if self.at == 1 {
            self.at = 0;
            return Err(TakeFault::Full);
        }
        self.at = self.at.saturating_sub(1);
        self.blocks.take(words)
    }

    fn take_at_once(&mut self, _: usize) -> Option<BlockId> {
        None
    }

    fn give_at_once(&mut self, _: BlockId) -> bool {
        false
    }

    fn give(&mut self, block: BlockId) -> Result<(), Pinned> {
        self.blocks.give(block)
    }

    fn length(&self, block: BlockId) -> usize {
        self.blocks.length(block)
    }

    fn read(&self, block: BlockId, at: usize) -> i64 {
        self.blocks.read(block, at)
    }

    fn write(&mut self, block: BlockId, at: usize, value: i64) {
        self.blocks.write(block, at, value);
    }

    fn pair(&mut self, from: BlockId, to: BlockId) -> (&[i64], &mut [i64]) {
        self.blocks.pair(from, to)
    }

    fn pin(&mut self, block: BlockId) {
        self.blocks.pin(block);
    }

    fn unpin(&mut self, block: BlockId) {
        self.blocks.unpin(block);
    }

    fn pins(&self, block: BlockId) -> u64 {
        self.blocks.pins(block)
    }

    fn used(&self) -> usize {
        self.blocks.used()
    }

    fn room(&self, words: usize) -> bool {
        self.at != 1 && self.blocks.room(words)
    }

    #[inline(always)]
    fn blocks_are_short(&self) {
        self.blocks.blocks_are_short();
    }

    ghost refuses = { λ s w. full_at_refuses B.allows (refused_take s) (B.kept (behind s))
        (sizes (B.blocks (behind s))) w (B.has_room (behind s) w) (B.refuses (behind s) w) };

    ghost pair_keeps = { λ s b ws. ap (λ (x : B.Rest). (refused_take s, x)) (B.pair_keeps (behind s) b ws) };

    ghost pair_writes = { λ s b ws. B.pair_writes (behind s) b ws };
}
