//! The errors that end a run.

ghost use Rattle.std.specs.Prelude.{◌≡◌};
ghost use Rattle.f3_meaning_whole.specs.Error.{error_number, error_words};

/// An error that ends a run, or whose number a STAT variable takes (own rule for ISO/IEC 1539-1:2004, 6.3.1.3 and 6.3.3.3),
/// in the order of the numbers, from 1 on.
#[derive(Clone, Copy, PartialEq, Eq, Debug)]
pub enum RunError {
    /// integer overflow
    Overflow,
    /// division by zero
    DivisionByZero,
    /// subscript out of bounds
    SubscriptOutOfBounds,
    /// not allocated
    NotAllocated,
    /// already allocated
    AlreadyAllocated,
    /// heap has no room
    HeapHasNoRoom,
    /// shapes differ
    ShapesDiffer,
    /// step is zero
    StepIsZero,
    /// in use by an argument
    InUse,
    /// calls deeper than 1000
    CallsTooDeep,
    /// array larger than 16,777,216 elements
    ArrayTooLarge,
}

impl RunError {
    /// Its number, from 1 to 11.
    pub fn number(self) -> u32
        ensures { result ≡ error_number self }
    {
        match self {
            RunError::Overflow => 1,
            RunError::DivisionByZero => 2,
            RunError::SubscriptOutOfBounds => 3,
            RunError::NotAllocated => 4,
            RunError::AlreadyAllocated => 5,
            RunError::HeapHasNoRoom => 6,
            RunError::ShapesDiffer => 7,
            RunError::StepIsZero => 8,
            RunError::InUse => 9,
            RunError::CallsTooDeep => 10,
            RunError::ArrayTooLarge => 11,
        }
    }

    /// Its words, in ASCII.
    pub fn words(self) -> &'static str
        ensures { result.now ≡ error_words self }
    {
        match self {
            RunError::Overflow => "integer overflow",
            RunError::DivisionByZero => "division by zero",
            RunError::SubscriptOutOfBounds => "subscript out of bounds",
            RunError::NotAllocated => "not allocated",
            RunError::AlreadyAllocated => "already allocated",
            RunError::HeapHasNoRoom => "heap has no room",
            RunError::ShapesDiffer => "shapes differ",
            RunError::StepIsZero => "step is zero",
            RunError::InUse => "in use by an argument",
            RunError::CallsTooDeep => "calls deeper than 1000",
            RunError::ArrayTooLarge => "array larger than 16,777,216 elements",
        }
    }
}
