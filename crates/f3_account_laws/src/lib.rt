//! What instructions take of a heap is what they want of it.
#![tactic(auto)]

ghost use Rattle.f3_account_laws.specs.Laws.{AssignmentsTakeWhatTheyWant, CallsTakeWhatTheyWant, LevelsAreGivenBack, ObjectsAreGivenBack, ObjectsTakeWhatTheyWant};

/// A call takes just the words that it wants: a block for the values that are held for the procedure, and one for its variables
/// (own rule).
pub fn calls_take_what_they_want()
    ensures { CallsTakeWhatTheyWant }
{}

/// An ALLOCATE takes just the words that it wants: the block of the object that it makes (own rule).
pub fn objects_take_what_they_want()
    ensures { ObjectsTakeWhatTheyWant }
{}

/// An assignment to an unallocated variable takes the block of the new object, and leaves the rest of what it wants to the copies
/// of the objects beneath the value (own rule).
pub fn assignments_take_what_they_want()
    ensures { AssignmentsTakeWhatTheyWant }
{}

/// An object that is freed gives its block back (own rule).
pub fn objects_are_given_back()
    ensures { ObjectsAreGivenBack }
{}

/// Levels that end give their blocks back (own rule).
pub fn levels_are_given_back()
    ensures { LevelsAreGivenBack }
{}
