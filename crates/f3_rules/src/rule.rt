//! The rules that a program may break.

ghost use Rattle.std.specs.Prelude.{◌≡◌};
ghost use Rattle.f3_rules.specs.Rule.{identifier, words};

/// A rule of the refusal table (docs/RULES.md), in the order of the table.
#[derive(Clone, Copy, PartialEq, Eq, Debug)]
pub enum Rule {
    /// character not allowed
    S1,
    /// unfinished constant or continuation
    S2,
    /// name too long
    S3,
    /// literal too large
    S4,
    /// no statement of the profile
    S5,
    /// statement out of place or wrong END name
    S6,
    /// text ends inside a unit
    S7,
    /// nesting above 64 or a size limit
    S8,
    /// unit name twice
    U1,
    /// module missing
    U2,
    /// module reaches itself
    U3,
    /// not exactly one main program
    U4,
    /// module has no such name
    N1,
    /// name is private there
    N2,
    /// declared twice
    N3,
    /// attribute on a use-associated name
    N4,
    /// access outside a module
    N5,
    /// access given twice
    N6,
    /// access to no entity
    N7,
    /// PROTECTED not on a variable of this module
    N8,
    /// INTENT missing or misplaced
    N9,
    /// name not accessible
    N10,
    /// name of several entities
    N11,
    /// no such component
    N12,
    /// private component
    N13,
    /// attributes together
    T1,
    /// constant
    T2,
    /// type not defined before
    T3,
    /// final
    T4,
    /// size limit
    T5,
    /// type
    T6,
    /// rank
    T7,
    /// arguments
    T8,
    /// kind of thing
    T9,
    /// constructor
    T10,
    /// CASE overlap
    T11,
    /// finalizable value
    T12,
    /// protected variable
    D1,
    /// INTENT(IN)
    D2,
    /// not a variable
    D3,
    /// active DO variable
    D4,
    /// definition in a PURE procedure
    D5,
    /// call, PRINT or STOP in a PURE procedure
    D6,
}

impl Rule {
    /// The rule's identifier in the table, as `S1`.
    #[tactic(auto, unfolding(crate::specs::Rule::identifier))]
    pub fn identifier(self) -> &'static str
        ensures { result.now ≡ identifier self }
    {
        match self {
            Rule::S1 => "S1",
            Rule::S2 => "S2",
            Rule::S3 => "S3",
            Rule::S4 => "S4",
            Rule::S5 => "S5",
            Rule::S6 => "S6",
            Rule::S7 => "S7",
            Rule::S8 => "S8",
            Rule::U1 => "U1",
            Rule::U2 => "U2",
            Rule::U3 => "U3",
            Rule::U4 => "U4",
            Rule::N1 => "N1",
            Rule::N2 => "N2",
            Rule::N3 => "N3",
            Rule::N4 => "N4",
            Rule::N5 => "N5",
            Rule::N6 => "N6",
            Rule::N7 => "N7",
            Rule::N8 => "N8",
            Rule::N9 => "N9",
            Rule::N10 => "N10",
            Rule::N11 => "N11",
            Rule::N12 => "N12",
            Rule::N13 => "N13",
            Rule::T1 => "T1",
            Rule::T2 => "T2",
            Rule::T3 => "T3",
            Rule::T4 => "T4",
            Rule::T5 => "T5",
            Rule::T6 => "T6",
            Rule::T7 => "T7",
            Rule::T8 => "T8",
            Rule::T9 => "T9",
            Rule::T10 => "T10",
            Rule::T11 => "T11",
            Rule::T12 => "T12",
            Rule::D1 => "D1",
            Rule::D2 => "D2",
            Rule::D3 => "D3",
            Rule::D4 => "D4",
            Rule::D5 => "D5",
            Rule::D6 => "D6",
        }
    }

    /// The rule's words in the table.
    #[tactic(auto, unfolding(crate::specs::Rule::words))]
    pub fn words(self) -> &'static str
        ensures { result.now ≡ words self }
    {
        match self {
            Rule::S1 => "character not allowed",
            Rule::S2 => "unfinished constant or continuation",
            Rule::S3 => "name too long",
            Rule::S4 => "literal too large",
            Rule::S5 => "no statement of the profile",
            Rule::S6 => "statement out of place or wrong END name",
            Rule::S7 => "text ends inside a unit",
            Rule::S8 => "nesting above 64 or a size limit",
            Rule::U1 => "unit name twice",
            Rule::U2 => "module missing",
            Rule::U3 => "module reaches itself",
            Rule::U4 => "not exactly one main program",
            Rule::N1 => "module has no such name",
            Rule::N2 => "name is private there",
            Rule::N3 => "declared twice",
            Rule::N4 => "attribute on a use-associated name",
            Rule::N5 => "access outside a module",
            Rule::N6 => "access given twice",
            Rule::N7 => "access to no entity",
            Rule::N8 => "PROTECTED not on a variable of this module",
            Rule::N9 => "INTENT missing or misplaced",
            Rule::N10 => "name not accessible",
            Rule::N11 => "name of several entities",
            Rule::N12 => "no such component",
            Rule::N13 => "private component",
            Rule::T1 => "attributes together",
            Rule::T2 => "constant",
            Rule::T3 => "type not defined before",
            Rule::T4 => "final",
            Rule::T5 => "size limit",
            Rule::T6 => "type",
            Rule::T7 => "rank",
            Rule::T8 => "arguments",
            Rule::T9 => "kind of thing",
            Rule::T10 => "constructor",
            Rule::T11 => "CASE overlap",
            Rule::T12 => "finalizable value",
            Rule::D1 => "protected variable",
            Rule::D2 => "INTENT(IN)",
            Rule::D3 => "not a variable",
            Rule::D4 => "active DO variable",
            Rule::D5 => "definition in a PURE procedure",
            Rule::D6 => "call, PRINT or STOP in a PURE procedure",
        }
    }
}
