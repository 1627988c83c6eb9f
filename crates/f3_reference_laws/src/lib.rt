//! The law that the expressions of elaborated programs refer to functions alone.
#![tactic(auto)]

ghost use Rattle.f3_reference_laws.specs.Laws.{ElaboratedRefers};

/// Wherever an expression stands in an elaborated program, each reference in it is one to a function, where what the rules take for
/// functions are functions of the program (ISO/IEC 1539-1:2004, 12.4.2).
pub fn elaborated_refers()
    ensures { ElaboratedRefers }
{}
