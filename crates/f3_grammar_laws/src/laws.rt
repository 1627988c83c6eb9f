//! Laws on the grammar: what tokens spell is one.

ghost use Rattle.f3_grammar_laws.specs.Laws.{LevelsAreOne, ExpressionsAreOne, DeclarationsAreOne, FormsAreOne, AlternativesExclude, FormsAreOfFourKinds, ShapesExclude, SelectionsExclude, StatusIsNoObject};

/// A front of the tokens spells one expression at most, and what stands behind it is the same; so for each level of
/// expressions, for designators, and for the arguments of a procedure (7.1, 6.1.2, 12.4).
pub fn expressions_are_one()
    ensures levels { LevelsAreOne }
    ensures expressions { ExpressionsAreOne }
{}

/// All that stands behind USE, PUBLIC or PRIVATE, all of a type declaration, of a header, and of the beginning of a type
/// definition spells one at most (11.2.1, 5.2.1, 5.1, 12.5.2, 4.5).
pub fn declarations_are_one()
    ensures { DeclarationsAreOne }
{}

/// All tokens of a statement spell one form at most (clauses 4, 5, 7, 8, 11, 12), and one action at most.
pub fn forms_are_one()
    ensures { FormsAreOne }
{}

/// Where the grammar takes one reading before another, no tokens have both, so the order shuts nothing out: the forms of
/// statements are all actions, headers, declarations and statements with a keyword of their own. Nor is anything shut
/// out where a shape, the list of a USE or an object of an ALLOCATE is what another reading is not.
pub fn alternatives_exclude_each_other()
    ensures alternatives { AlternativesExclude }
    ensures kinds { FormsAreOfFourKinds }
    ensures shapes { ShapesExclude }
    ensures selections { SelectionsExclude }
    ensures objects { StatusIsNoObject }
{}
