//! The plain finite map of blocks: slow, for reference.

ghost use Rattle.std.specs.Prelude.{◌≡◌, ◌≤◌, ◌<◌, ◌+◌, ◌-◌, ◌^◌, ℕ, pos, nat_le, length, replicate, take};
ghost use Rattle.std.specs.Prelude.{IfOk, OnOk, OnErr, false, get_or};
ghost use Rattle.std.proofs.Common.{refl};
ghost use Rattle.f3_live_blocks.specs.Blocks.{with_words, words_of, pins_of, written_over, IsLive};
ghost use Rattle.f3_heap_laws.specs.Account.{r, used_by};
ghost use Rattle.std.specs.FinMap.{empty};
ghost use Rattle.f3_heap_laws.specs.Rules.{plain_allows};
ghost use Rattle.f3_heap_laws.proofs.Refusals.{plain_refuses};
ghost use Rattle.f3_heap.specs.Plain.{live_slots, IsPut};

use crate::block_id::BlockId;
use crate::blocks::{Blocks, Pinned, TakeFault};
use f3_heap_laws::{fits, size_of_block};
use std::alloc::Global;
use std::marker::Model;

/// A block, or the empty place of one.
#[derive(Drop)]
struct Slot {
    live: bool,
    words: Vec<i64>,
    pins: u64,
}

/// The finite map itself, as a list by `word`. It is slow, and only its `take` can answer `Memory`.
///
/// `take` answers `Full` exactly where the live blocks and the new one would take more words than
/// the heap has. Else it answers any new block, or `Memory` where a growth of the list was refused.
#[derive(Drop)]
pub struct PlainBlocks {
    alloc: Global,
    size: usize,
    used: usize,
    slots: Vec<Slot>,
    scratch: Vec<i64>,
}

impl Model for PlainBlocks {
    ghost use Rattle.f3_live_blocks.specs.Blocks.{Heap, heap_code};

    ghost Value = { Heap };

    ghost coded = { heap_code };

    ghost use Rattle.std.specs.Prelude.{length};
    ghost use Rattle.f3_heap.specs.Plain.{live_slots, IsAccounted};

    ghost view = { λ s. record { blocks = live_slots s.slots.items; size = s.size } };

    ghost invariant = { λ s. IsAccounted s.slots.items s.size s.used (length s.scratch.items) };
}

impl PlainBlocks {
    /// An empty heap for blocks that take so many words together. It takes no memory.
    pub fn new(alloc: Global, words: usize) -> PlainBlocks
        ensures { result ≡ record { blocks = empty; size = words } }
    {
        PlainBlocks {
            alloc,
            size: words,
            used: 0,
            slots: Vec::new(alloc),
            scratch: Vec::new(alloc),
        }
    }
}

/// A list of so many zeros, or `Memory`.
fn zeros(alloc: Global, words: usize) -> Result<Vec<i64>, TakeFault>
    ensures zeros { IfOk result (λ v. v.items ≡ replicate words (pos 0)) }
    ensures memory { OnErr result (result ≡ Err TakeFault.Memory) }
{
    Vec::from_elem(alloc, 0, words).map_err(|_| TakeFault::Memory)
}

/// The first place in the list that no block takes, or its end.
fn first_free(slots: &[Slot]) -> usize
    ensures within { result ≤ length slots.now }
    ensures free { (d : _) → result < length slots.now → (get_or slots.now result d).live ≡ false }
{
    for (i, slot) in slots.iter().enumerate() {
        if !slot.live {
            return i;
        }
    }
    slots.len()
}

/// Makes a list at least so long, or answers `Memory`.
fn lengthen(list: &mut Vec<i64>, words: usize) -> Result<(), TakeFault>
    ensures kept { length list.old.items ≤ length list.new.items }
    ensures long { OnOk result (words ≤ length list.new.items) }
    ensures memory { OnErr result (result ≡ Err TakeFault.Memory) }
{
    if list.len() < words && list.resize(words, 0).is_err() {
        return Err(TakeFault::Memory);
    }
    Ok(())
}

/// Puts a slot where no block is live, and tells where, or answers `Memory`.
fn put(slots: &mut Vec<Slot>, slot: Slot) -> Result<usize, TakeFault>
    ensures put { IfOk result (λ at. IsPut slots.old.items slot at slots.new.items) }
    ensures short { IfOk result (λ at. at + 1 < 2 ^ 63) }
    ensures kept { OnErr result (slots.new.items ≡ slots.old.items) }
    ensures memory { OnErr result (result ≡ Err TakeFault.Memory) }
{
    let at = first_free(slots);
    if at < slots.len() {
        slots[at] = slot;
    } else if slots.push(slot).is_err() {
        return Err(TakeFault::Memory);
    }
    Ok(at)
}

/// Copies words over the front of a list that is long enough.
fn copy_words(list: &mut [i64], words: &[i64])
    requires { length words.now ≤ length list.old }
    ensures { take (length words.now) list.new ≡ words.now }
{
    let n = words.len();
    list[..n].copy_from_slice(words);
}

/// The slot of a live block.
fn slot_of(slots: &[Slot], block: BlockId) -> &Slot
    requires { IsLive (live_slots slots.now) block }
    ensures within { block ≤ length slots.now }
    ensures at { (d : _) → result.now ≡ get_or slots.now (block - 1) d }
    ensures words { words_of (live_slots slots.now) block ≡ result.now.words.items }
    ensures pins { pins_of (live_slots slots.now) block ≡ result.now.pins }
{
    &slots[block.place()]
}

impl Blocks for PlainBlocks {
    ghost blocks = { λ h. h.blocks };

    ghost Rest = { ℕ };

    ghost kept = { λ h. h.size };

    ghost allows = { plain_allows };

    ghost spent = { λ n. n };

    ghost has_room = { λ h w. nat_le (used_by h.blocks + r w) h.size };

    ghost after_pair = { λ h b ws. record h { blocks = with_words h.blocks b (written_over (words_of h.blocks b) ws) } };

    fn take(&mut self, words: usize) -> Result<BlockId, TakeFault> {
        if !self.room(words) {
            return Err(TakeFault::Full);
        }
        let slot = Slot {
            live: true,
            words: zeros(self.alloc, words)?,
            pins: 0,
        };
        lengthen(&mut self.scratch, words)?;
        let at = put(&mut self.slots, slot)?;
        self.used += size_of_block(words);
        Ok(BlockId::at(at))
    }

    fn take_at_once(&mut self, _: usize) -> Option<BlockId> {
        None
    }

    fn give_at_once(&mut self, _: BlockId) -> bool {
        false
    }

    fn give(&mut self, block: BlockId) -> Result<(), Pinned> {
        let slot = slot_of(&self.slots, block);
        if slot.pins > 0 {
            return Err(Pinned);
        }
        let size = size_of_block(slot.words.len());
        let at = block.place();
        self.slots[at] = Slot {
            live: false,
            words: Vec::new(self.alloc),
            pins: 0,
        };
        self.used -= size;
        Ok(())
    }

    fn length(&self, block: BlockId) -> usize {
        slot_of(&self.slots, block).words.len()
    }

    fn read(&self, block: BlockId, at: usize) -> i64 {
        slot_of(&self.slots, block).words[at]
    }

    fn write(&mut self, block: BlockId, at: usize, value: i64) {
        let place = block.place();
        let slot = &mut self.slots[place];
        slot.words[at] = value;
    }

    fn pair(&mut self, from: BlockId, to: BlockId) -> (&[i64], &mut [i64]) {
        let words = slot_of(&self.slots, from).words.as_slice();
        let n = words.len();
        copy_words(&mut self.scratch, words);
        let place = to.place();
        let target = &mut self.slots[place];
        (&self.scratch[..n], target.words.as_mut_slice())
    }

    fn pin(&mut self, block: BlockId) {
        let place = block.place();
        let slot = &mut self.slots[place];
        slot.pins += 1;
    }

    fn unpin(&mut self, block: BlockId) {
        let place = block.place();
        let slot = &mut self.slots[place];
        slot.pins -= 1;
    }

    fn pins(&self, block: BlockId) -> u64 {
        slot_of(&self.slots, block).pins
    }

    fn used(&self) -> usize {
        self.used
    }

    fn room(&self, words: usize) -> bool {
        fits(words, self.size - self.used)
    }

    #[inline(always)]
    fn blocks_are_short(&self) {
        let _size = self.size;
    }

    ghost refuses = { λ h w. plain_refuses h.size h.blocks w };

    ghost pair_keeps = { λ h b ws. refl };

    ghost pair_writes = { λ h b ws. refl };
}
