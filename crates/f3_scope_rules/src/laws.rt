//! What follows of the rules on one scope.

ghost use Rattle.f3_scope_rules.specs.Laws.{ConstructBreaks};

/// An ASSOCIATE construct breaks the rules on what one scope declares exactly where an associate name stands behind the
/// same name of its statement, and that by N3 at the later one.
pub fn construct_breaks_are_n3()
    ensures { ConstructBreaks }
{}
