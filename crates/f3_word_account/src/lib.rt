//! What a machine over words takes of its heap: just the blocks of its variables, and of the values that it holds.
#![tactic(auto)]

ghost use Rattle.f3_word_account.specs.Laws.{ActivationsHaveBlocks, LinesHoldNoValues, LiveBlocksAreOwned, NothingLeaks, UsedIsWordsOfBlocks};
ghost use Rattle.f3_word_account.specs.Runs.{EndsLeakNothing, LinesLeakNothing, StatementsLeakNothing};

/// Each live block is that of the variables that live for the whole run, that of the variables of an activation or of a value that is held
/// for a call or an ASSOCIATE, or that of a value on the stack, and of these it is one only; and each of these is live (own rule).
pub fn live_blocks_are_owned()
    ensures { LiveBlocksAreOwned }
{}

/// The variables of each activation stand in a block, which has at least their words (own rule).
pub fn activations_have_blocks()
    ensures { ActivationsHaveBlocks }
{}

/// The words in use are exactly those that these blocks take; and each value on the stack has a block of just its own words (own rule).
pub fn used_is_words_of_blocks()
    ensures { UsedIsWordsOfBlocks }
{}

/// Where no level is open but that of one activation and no value stands on the stack, only two blocks are in use: that of the variables
/// that live for the whole run, and that of the variables of the activation (own rule).
pub fn nothing_leaks()
    ensures { NothingLeaks }
{}

/// At a line of the main program whose cells are known to hold no values, no value stands on the stack (own rule).
pub fn lines_hold_no_values()
    ensures { LinesHoldNoValues }
{}

/// In each state of a run of the main program, at a line at which no cell is known that holds a value or belongs to an ASSOCIATE, nothing
/// else is in use than these two blocks (own rule).
pub fn lines_leak_nothing()
    ensures { LinesLeakNothing }
{}

/// So it is where a statement of the main program begins that stands in no ASSOCIATE, within whatever other constructs, and whatever was
/// called before (own rule).
pub fn statements_leak_nothing()
    ensures { StatementsLeakNothing }
{}

/// So it is where a run comes to the END of the main program (own rule for ISO/IEC 1539-1:2004, 11.1).
pub fn ends_leak_nothing()
    ensures { EndsLeakNothing }
{}
