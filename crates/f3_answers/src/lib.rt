//! The machine over a heap of a size: its requests, and how they are answered.
#![tactic(auto)]

ghost use Rattle.f3_answers.specs.Laws.{HeapAnswers};

/// The machine over a heap of a size is the machine with some answers of a heap, for as long as one looks (own rule): so what is
/// proved of the machine with all answers holds of it.
pub fn heap_answers()
    ensures { HeapAnswers }
{}
