//! Laws that expressions which break no rule have in the elaborated program what code of known kinds asks.
#![tactic(auto)]

ghost use Rattle.f3_fitting_laws.specs.Laws.{ExpressionsFit};

/// An expression that breaks no rule of phase 6 fits: its literals have at most 64 bits, its operators fit the types of their operands, and
/// its constructors have the values that they take (ISO/IEC 1539-1:2004, 4.5.9, 4.7, 7.1.4).
pub fn expressions_fit()
    ensures { ExpressionsFit }
{}
