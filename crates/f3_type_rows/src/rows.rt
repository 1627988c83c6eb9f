//! Programs, and what refuses them, computed from the definitions: nothing here is called by f3. The expected answers were worked
//! out by hand from the language's rules, or are those of a compiler written apart from these definitions.

ghost use Rattle.f3_type_rows.specs.Names.{NamesShow};
ghost use Rattle.f3_type_rows.specs.NamesB.{NamesBShow};
ghost use Rattle.f3_type_rows.specs.T1.{T1Show};
ghost use Rattle.f3_type_rows.specs.T2.{T2Show};
ghost use Rattle.f3_type_rows.specs.T2B.{T2BShow};
ghost use Rattle.f3_type_rows.specs.T2C.{T2CShow};
ghost use Rattle.f3_type_rows.specs.T3To5.{T3To5Show};
ghost use Rattle.f3_type_rows.specs.T3To5B.{T3To5BShow};
ghost use Rattle.f3_type_rows.specs.T6.{T6Show};
ghost use Rattle.f3_type_rows.specs.T6B.{T6BShow};
ghost use Rattle.f3_type_rows.specs.T6C.{T6CShow};
ghost use Rattle.f3_type_rows.specs.T7.{T7Show};
ghost use Rattle.f3_type_rows.specs.T7B.{T7BShow};
ghost use Rattle.f3_type_rows.specs.T8.{T8Show};
ghost use Rattle.f3_type_rows.specs.T8B.{T8BShow};
ghost use Rattle.f3_type_rows.specs.T9And10.{T9And10Show};
ghost use Rattle.f3_type_rows.specs.T9And10B.{T9And10BShow};
ghost use Rattle.f3_type_rows.specs.T11And12.{T11And12Show};
ghost use Rattle.f3_type_rows.specs.T11And12B.{T11And12BShow};
ghost use Rattle.f3_type_rows.specs.D1And2.{D1And2Show};
ghost use Rattle.f3_type_rows.specs.D3And4.{D3And4Show};
ghost use Rattle.f3_type_rows.specs.D3And4B.{D3And4BShow};
ghost use Rattle.f3_type_rows.specs.D5And6.{D5And6Show};
ghost use Rattle.f3_type_rows.specs.Accepted.{AcceptedShow};
ghost use Rattle.f3_type_rows.specs.AcceptedB.{AcceptedBShow};
ghost use Rattle.f3_type_rows.specs.AcceptedC.{AcceptedCShow};
ghost use Rattle.f3_type_rows.specs.AcceptedD.{AcceptedDShow};
ghost use Rattle.f3_type_rows.specs.AcceptedE.{AcceptedEShow};
ghost use Rattle.f3_type_rows.specs.AcceptedF.{AcceptedFShow};
ghost use Rattle.f3_type_rows.specs.AcceptedG.{AcceptedGShow};

/// These are the first breaks of these programs.
pub fn names_show()
    ensures { NamesShow }
{}

/// These are the first breaks of these programs.
pub fn names_b_show()
    ensures { NamesBShow }
{}

/// These are the first breaks of these programs.
pub fn t1_show()
    ensures { T1Show }
{}

/// These are the first breaks of these programs.
pub fn t2_show()
    ensures { T2Show }
{}

/// These are the first breaks of these programs.
pub fn t2_b_show()
    ensures { T2BShow }
{}

/// These are the first breaks of these programs.
pub fn t2_c_show()
    ensures { T2CShow }
{}

/// These are the first breaks of these programs.
pub fn t3_to5_show()
    ensures { T3To5Show }
{}

/// These are the first breaks of these programs.
pub fn t3_to5_b_show()
    ensures { T3To5BShow }
{}

/// These are the first breaks of these programs.
pub fn t6_show()
    ensures { T6Show }
{}

/// These are the first breaks of these programs.
pub fn t6_b_show()
    ensures { T6BShow }
{}

/// These are the first breaks of these programs.
pub fn t6_c_show()
    ensures { T6CShow }
{}

/// These are the first breaks of these programs.
pub fn t7_show()
    ensures { T7Show }
{}

/// These are the first breaks of these programs.
pub fn t7_b_show()
    ensures { T7BShow }
{}

/// These are the first breaks of these programs.
pub fn t8_show()
    ensures { T8Show }
{}

/// These are the first breaks of these programs.
pub fn t8_b_show()
    ensures { T8BShow }
{}

/// These are the first breaks of these programs.
pub fn t9_and10_show()
    ensures { T9And10Show }
{}

/// These are the first breaks of these programs.
pub fn t9_and10_b_show()
    ensures { T9And10BShow }
{}

/// These are the first breaks of these programs.
pub fn t11_and12_show()
    ensures { T11And12Show }
{}

/// These are the first breaks of these programs.
pub fn t11_and12_b_show()
    ensures { T11And12BShow }
{}

/// These are the first breaks of these programs.
pub fn d1_and2_show()
    ensures { D1And2Show }
{}

/// These are the first breaks of these programs.
pub fn d3_and4_show()
    ensures { D3And4Show }
{}

/// These are the first breaks of these programs.
pub fn d3_and4_b_show()
    ensures { D3And4BShow }
{}

/// These are the first breaks of these programs.
pub fn d5_and6_show()
    ensures { D5And6Show }
{}

/// Nothing refuses these programs.
pub fn accepted_show()
    ensures { AcceptedShow }
{}

/// Nothing refuses these programs.
pub fn accepted_b_show()
    ensures { AcceptedBShow }
{}

/// Nothing refuses these programs.
pub fn accepted_c_show()
    ensures { AcceptedCShow }
{}

/// Nothing refuses these programs.
pub fn accepted_d_show()
    ensures { AcceptedDShow }
{}

/// Nothing refuses these programs.
pub fn accepted_e_show()
    ensures { AcceptedEShow }
{}

/// Nothing refuses these programs.
pub fn accepted_f_show()
    ensures { AcceptedFShow }
{}

/// Nothing refuses these programs.
pub fn accepted_g_show()
    ensures { AcceptedGShow }
{}
