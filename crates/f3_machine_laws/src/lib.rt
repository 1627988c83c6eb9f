//! How runs of programs end, and what that says of their meaning.
#![tactic(auto)]

ghost use Rattle.f3_machine_laws.specs.Laws.{AnswersMean, LimitsSuffice};

pub mod ended;

/// What a machine with the code of a program over a heap of a size answers, the program means: the end is that of one of its runs,
/// with answers that this heap gives, and what was written is all that this run prints, or begins it where the machine was cut
/// short; the code is never stuck (own rule).
pub fn answers_mean()
    ensures { AnswersMean }
{}

/// A program that ends is not cut short where the machine may take enough instructions (own rule).
pub fn limits_suffice()
    ensures { LimitsSuffice }
{}
