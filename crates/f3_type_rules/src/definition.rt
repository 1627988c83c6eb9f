//! What the rules on definitions of variables ask.

use f3_tree::declaration::Intent;

/// What the rules on definitions ask of a variable that a specification part declares (ISO/IEC 1539-1:2004, 16.5).
#[derive(Clone, Copy)]
pub struct Holder {
    /// The number of the scope of the unit that holds it.
    pub unit: usize,
    /// The number of the scope that declares it.
    pub scope: usize,
    pub is_protected: bool,
    /// Its intent, where it is a dummy argument.
    pub intent: Option<Intent>,
}
