//! The heap in one region of words.

#![tactic(auto)]

ghost use Rattle.std.specs.Prelude.{◌≡◌, ◌≢◌, ◌↔◌, ℕ, ◌-◌, ◌*◌, ◌/◌, Some, None, true, false, IfOk, IfSome, IfNone, OnErr, IsOk};
ghost use Rattle.std.specs.List.{list_any};
ghost use Rattle.std.specs.FinMap.{get, empty};
ghost use Rattle.f3_live_blocks.specs.Blocks.{with_taken, with_words, words_of, written_over};
ghost use Rattle.std.proofs.Common.{refl};
ghost use Rattle.f3_heap_laws.specs.Gaps.{gaps, places, is_wide, first_wide};
ghost use Rattle.f3_heap_laws.specs.Answers.{Taken, sizes};
ghost use Rattle.f3_heap_laws.specs.Rules.{raw_allows};
ghost use Rattle.f3_heap_laws.proofs.Refusals.{raw_refuses};
ghost use Rattle.f3_heap.specs.Answers.{answer_of};

use crate::arena::{Arena, Book};
use crate::block_id::BlockId;
use crate::blocks::{Blocks, Pinned, TakeFault};
use crate::heap_blocks::{give_block, give_last, has_room, take_block, take_last};
use crate::hints::CLASSES;
use crate::segments::{link, pin_count, put_pin_count};
use f3_raw::Region;
use std::alloc::{AllocError, Global};
use std::marker::Model;

/// A heap in one region of words. Only `new` takes memory.
///
/// `take` answers `Full` exactly where no gap of the region is wide enough for the block, else the
/// block at the front of the first gap that is. So it never answers `Memory`.
///
/// A block is its length, its pin count, its content, and its length again at its end. A free
/// block is linked to the next and the previous one by place, and tells its size at both ends.
/// The words behind the last block are the last run of the free ones.
#[derive(Drop)]
pub struct RawHeap {
    arena: Arena,
}

impl Model for RawHeap {
    ghost use Rattle.f3_live_blocks.specs.Blocks.{Heap, heap_code};

    ghost Value = { Heap };

    ghost coded = { heap_code };

    ghost use Rattle.f3_heap.specs.Arena.{IsArena, live_in};

    ghost view = { λ s. record { blocks = live_in s.arena.region s.arena.book.value; size = s.arena.book.value.size } };

    ghost invariant = { λ s. IsArena s.arena.region s.arena.book.value };
}

impl RawHeap {
    /// A heap of so many words, cut down to whole fours.
    ///
    /// # Errors
    ///
    /// `AllocError` where the host refused memory, for the region or for what is known of its blocks.
    pub fn new(alloc: Global, words: usize) -> Result<RawHeap, AllocError>
        ensures { IfOk result (λ h. h ≡ record { blocks = empty; size = words / 4 * 4 }) }
    {
        let size = words / 4 * 4;
        let region = Region::new(alloc, size)?;
        let book = Book {
            size,
            first: size,
            hints: [size; CLASSES],
            end: 0,
            used: 0,
        };
        let book = Box::new(alloc, book)?;
        Ok(RawHeap {
            arena: Arena { region, book },
        })
    }
}

impl Blocks for RawHeap {
    ghost blocks = { λ h. h.blocks };

    ghost Rest = { ℕ };

    ghost kept = { λ h. h.size };

    ghost allows = { raw_allows };

    ghost spent = { λ n. n };

    ghost has_room = { λ h w. list_any (is_wide w) (gaps (places h.blocks) h.size) };

    ghost after_pair = { λ h b ws. record h { blocks = with_words h.blocks b (written_over (words_of h.blocks b) ws) } };

    #[inline(always)]
    fn take(&mut self, words: usize) -> Result<BlockId, TakeFault>
        ensures full { (result ≡ Err TakeFault.Full) ↔ (list_any (is_wide words) (gaps (places self.old.blocks) self.old.size) ≡ false) }
        ensures fresh { IfOk result (λ b. get self.old.blocks b ≡ None) }
        ensures taken { IfOk result (λ b. self.new.blocks ≡ with_taken self.old.blocks b words) }
        ensures refused { OnErr result (self.new ≡ self.old) }
        ensures kept { self.new.size ≡ self.old.size }
        ensures allowed { raw_allows self.old.size (sizes self.old.blocks) words (answer_of result) }
        ensures first { IfOk result (λ b. first_wide words (gaps (places self.old.blocks) self.old.size) ≡ Some (b - 1)) }
        ensures without_memory { result ≢ Err TakeFault.Memory }
    {
        match take_block(&mut self.arena.region, &mut self.arena.book, words) {
            Some(at) => Ok(BlockId::at(at)),
            None => Err(TakeFault::Full),
        }
    }

    #[inline(always)]
    fn take_at_once(&mut self, words: usize) -> Option<BlockId>
        ensures room { IfSome result (λ b. list_any (is_wide words) (gaps (places self.old.blocks) self.old.size) ≡ true) }
        ensures fresh { IfSome result (λ b. get self.old.blocks b ≡ None) }
        ensures taken { IfSome result (λ b. self.new.blocks ≡ with_taken self.old.blocks b words) }
        ensures allowed { IfSome result (λ b. raw_allows self.old.size (sizes self.old.blocks) words (Taken b)) }
        ensures kept { IfSome result (λ b. self.new.size ≡ self.old.size) }
        ensures same { IfNone result (self.new ≡ self.old) }
    {
        match take_last(&mut self.arena.region, &mut self.arena.book, words) {
            Some(at) => Some(BlockId::at(at)),
            None => None,
        }
    }

    #[inline(always)]
    fn give_at_once(&mut self, block: BlockId) -> bool {
        let at = block.place();
        if pin_count(&self.arena.region, at + 1) != 0 {
            return false;
        }
        give_last(&self.arena.region, &mut self.arena.book, at)
    }

    #[inline(always)]
    fn give(&mut self, block: BlockId) -> Result<(), Pinned> {
        let at = block.place();
        if pin_count(&self.arena.region, at + 1) != 0 {
            return Err(Pinned);
        }
        give_block(&mut self.arena.region, &mut self.arena.book, at);
        Ok(())
    }

    fn length(&self, block: BlockId) -> usize {
        link(&self.arena.region, block.place())
    }

    fn read(&self, block: BlockId, at: usize) -> i64 {
        self.arena.region.get_from(block.place() + 2, at)
    }

    fn write(&mut self, block: BlockId, at: usize, value: i64) {
        self.arena.region.put_from(block.place() + 2, at, value);
    }

    fn pair(&mut self, from: BlockId, to: BlockId) -> (&[i64], &mut [i64]) {
        let n = self.length(from);
        let m = self.length(to);
        self.arena
            .region
            .pair(from.place() + 2, n, to.place() + 2, m)
    }

    fn pin(&mut self, block: BlockId) {
        let count = pin_count(&self.arena.region, block.place() + 1) + 1;
        put_pin_count(&mut self.arena.region, block.place() + 1, count);
    }

    fn unpin(&mut self, block: BlockId) {
        let count = pin_count(&self.arena.region, block.place() + 1) - 1;
        put_pin_count(&mut self.arena.region, block.place() + 1, count);
    }

    fn pins(&self, block: BlockId) -> u64 {
        pin_count(&self.arena.region, block.place() + 1)
    }

    fn used(&self) -> usize {
        self.arena.book.used
    }

    fn room(&self, words: usize) -> bool {
        has_room(&self.arena.region, &self.arena.book, words)
    }

    #[inline(always)]
    fn blocks_are_short(&self) {
        let _size = self.arena.book.size;
    }

    ghost refuses = { λ h w. raw_refuses h.size h.blocks w };

    ghost pair_keeps = { λ h b ws. refl };

    ghost pair_writes = { λ h b ws. refl };
}
