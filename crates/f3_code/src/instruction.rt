//! Instructions of a machine with a stack, whose operands are numbers.
//!
//! Distances are counted from the next instruction, in backward jumps from the instruction itself.

use f3_program::declarations::{Base, Constant};
use f3_program::expression::{BinaryOperator, Name, Query, UnaryOperator};
use f3_program::statement::Range;

/// How a construct is left (ISO/IEC 1539-1:2004, 8.1.1, 8.1.6.4.3, 8.1.6.4.4, 12.5.2.4).
#[derive(Clone, Copy)]
pub enum Way {
    Onward,
    Cycle,
    Exit,
    Return,
}

/// An instruction.
#[derive(Clone, Copy)]
pub enum Instruction {
    /// A constant (4.1.2).
    Push(Constant),
    /// The value of an expression in parentheses (7.1.7.3).
    Plain,
    /// An operation on one value, with the type of the result (7.1.4, 7.1.5).
    Unary(UnaryOperator, Base),
    /// An operation on two values, with the type of the result (7.1.4, 7.1.5).
    Binary(BinaryOperator, Base),
    /// An array of so many values (4.7).
    Array(usize),
    /// An object of a type, by its number, of so many arguments (4.5.9).
    Structure(usize, usize),
    /// A call of a procedure, by its number, with so many arguments (12.4).
    Call(usize, usize),
    /// The value of a function that has returned (12.4.2).
    Result,
    /// Whether an object is allocated (13.7.9).
    IsAllocated,
    /// The bounds of a value, and of a variable (13.7.60, 13.7.121).
    BoundsOfValue,
    BoundsOfVariable,
    /// How many elements there are within bounds (13.7.112).
    Size,
    /// What is asked of a dimension of bounds (13.7.60, 13.7.112, 13.7.121).
    Bound(Query),
    /// What an object holds (7.1).
    Load,
    /// An argument with its number: a value, or an object (12.4.1).
    PassValue(usize),
    PassVariable(usize),
    /// The object that a name means (16.4).
    Refer(Name),
    /// The component of a number (6.1.2).
    Component(usize),
    /// The same, and the object stays beneath.
    ComponentOf(usize),
    /// What an allocatable holds (6.3.1.1).
    Contents,
    /// Elements by so many subscripts, after what an allocatable holds where the first is `true` (6.2.2).
    Select(bool, usize),
    /// The same of the component of a number, also where this is one of each element of an array.
    SelectOf(bool, usize, usize),
    /// A subscript (6.2.2.1).
    Subscript,
    /// A bound of a triplet, and one that is absent (6.2.2.3.1).
    Limit,
    NoLimit,
    /// A triplet of two bounds and a step.
    Triplet,
    /// An error where a value is an array of another shape than a variable (7.4.1.3).
    TestShape,
    /// On where a variable is allocated in the shape of a value, else so far where it is allocated, and so far where it
    /// isn't (own rule).
    ByState(usize, usize),
    /// An error where a value has another rank (own rule).
    TestRank(usize),
    /// A variable is allocated with the bounds of a value and of a rank; its elements have the line's value (own rule).
    New(usize),
    /// A variable takes a value, converted to a type, with storage for it, or in storage that it has (7.4.1.3).
    Take(Base),
    Fill(Base),
    /// A statement begins.
    Begin,
    /// What is on top goes, and so many go.
    Drop,
    Unwind(usize),
    /// The two on top change places.
    Swap,
    /// The two objects on top are lent (13.7.82).
    LendBoth,
    /// The one on top takes what the other holds, and both are lent no longer (13.7.82).
    TakeOver,
    /// The bounds of a dimension (6.3.1).
    Dimension,
    /// An object of a rank is allocated with so many dimensions; its elements begin with the line's value (6.3.1).
    Allocate(usize, usize),
    /// On where an object may be deallocated, else there is an error, so far on (6.3.3).
    TestFree(usize),
    /// No error.
    NoError,
    /// So far on where there was an error.
    SkipIfFailed(usize),
    /// An error that there was ends the run.
    Check,
    /// The number of an error, 0 of none, goes to a variable (6.3.1.3, 6.3.3.3).
    StoreStatus,
    /// A value, and a byte, are printed (9.5).
    PrintValue,
    PrintByte(u8),
    /// The run stops (8.4).
    Stop(Option<u32>),
    /// The line's place is that of the activation.
    SetPlace,
    /// So far on, and so far back.
    GoOn(usize),
    GoBack(usize),
    /// So far on where a condition doesn't hold, and where it holds.
    SkipIfFalse(usize),
    SkipIfTrue(usize),
    /// Whether the value of the SELECT CASE around is in a range (8.1.3).
    Meets(Range),
    /// A SELECT CASE begins with a value (8.1.3).
    Selecting,
    /// A SELECT CASE or an ASSOCIATE is left in a way; so far on is its end.
    Leave(Way, usize),
    /// Three on, or so far where it was left by a CYCLE or an EXIT; the next where by a RETURN, whose place is the activation's.
    Depart(usize, usize),
    /// A selector of an ASSOCIATE: an object, or a value of a type, for which storage is claimed (8.1.4).
    SelectVariable,
    SelectValue(Base),
    /// An ASSOCIATE begins with so many selectors (8.1.4).
    Associate(usize),
    /// The objects of the ASSOCIATE that was left.
    Associated,
    /// The next of some objects, or so far on where there is none.
    NextObject(usize),
    /// The values that an ASSOCIATE held end.
    EndAssociate,
    /// The value is converted to a type (7.4.1.3).
    Convert(Base),
    /// An error where a step is zero (own rule for 8.1.6.4.1).
    TestStep,
    /// A DO begins: its variable takes the first value (8.1.6.4.1).
    CountBegin,
    /// The next turn of a DO, or so far on where there is none (8.1.6.4.2).
    CountNext(usize),
    /// The variable of a DO, of a type, goes on by the step (8.1.6.4.2).
    CountUp(Base),
    /// The object is lent, and is lent no longer.
    Lend,
    Unlend,
    /// So far on where an object is of another rank than this.
    SkipUnlessRank(usize, usize),
    /// The object as an argument.
    PassObject,
    /// The routine of a type, by its number, works on the object (4.5.5.1).
    Routine(usize),
    /// Back from a routine.
    Back,
    /// A component of the object, by its number, selected by the language.
    WorkComponent(usize),
    /// The elements of the object, and the next of them, or so far on where there is none (6.2.2.2).
    WalkBegin,
    WalkNext(usize),
    /// So far on where the object isn't allocated.
    SkipUnlessAllocated(usize),
    /// What the object holds, or an error where it is in use (6.3.3).
    OpenContents,
    /// The object is unallocated (6.3.3).
    Free,
    /// What is allocated beneath the object is freed.
    Clear,
    /// The object takes the line's value.
    Set,
    /// What a held value has allocated is freed.
    Discard,
    /// The objects of the dummies.
    Dummies,
    /// The value of a function's result, by its number among the variables, and some value of a subroutine.
    ResultOf(Option<usize>),
    /// Where the procedure was called, with the objects of its dummies.
    Outward,
    /// The next of some objects where the argument of a number is a held value, else so far on.
    NextArgument(usize, usize),
    /// Back to the caller.
    Return,
    /// The end of the run.
    Finish,
}
