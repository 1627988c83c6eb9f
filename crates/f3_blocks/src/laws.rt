//! What the machine of a block reads is what spells a block.

ghost use Rattle.f3_blocks.specs.Laws.{HoldsWhatIsSpelled, ReadsWhatIsSpelled, GoesOnToAnEnd};

/// The machine, step by step as `BlockBuilder` steps, reads blocks: statements that were read, with no construct open,
/// spell the block that is held; statements that spell a block are read as that block; and what was read can go on to
/// the end of a block, so a statement is out of place exactly where no block begins so (8.1).
pub fn reads_blocks()
    ensures holds { HoldsWhatIsSpelled }
    ensures reads { ReadsWhatIsSpelled }
    ensures goes_on { GoesOnToAnEnd }
{}
