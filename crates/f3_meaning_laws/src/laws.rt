//! Laws of the meaning: each is the contract of a function that does nothing.

ghost use Rattle.f3_meaning_laws.specs.Laws.{
  ChangesArePermitted,
  PrivateStays,
  ProtectedStays,
  RunsGrow,
  StagesStand,
  StoresAgree,
};

/// With more turns of loops a run that has ended is the same, and another has the same events and
/// perhaps more.
pub fn runs_grow()
    ensures { RunsGrow }
{}

/// Every change that a run makes is permitted, whatever the bound on turns and whatever the heap
/// answers, where private components are selected by their types' modules alone, each definition
/// context has a variable that may be defined there, and types agree (ISO/IEC 1539-1:2004,
/// 4.5.1.1, 5.1.2.7, 5.1.2.12, 16.5.7). Its reference's components stand beside the makers that
/// are told, one for one, with the types of their declarations.
pub fn changes_are_permitted()
    ensures { ChangesArePermitted }
{}

/// Each stage, as a statement or an END begins, has the store that the run has there: the first
/// store with the effects of all that has happened.
pub fn stages_stand()
    ensures { StagesStand }
{}

/// Of any two stages of a run the stores agree, but at, beneath and above the paths of the changes
/// between them, and at roots that began or ended.
pub fn stores_agree()
    ensures { StoresAgree }
{}

/// A protected variable holds in each stage what it held in the stage before, but for changes by
/// statements of its module, or through arguments that its module passed (5.1.2.12).
pub fn protected_stays()
    ensures { ProtectedStays }
{}

/// A private component holds in each stage what it held in the stage before, but for changes of
/// the whole object, and for changes of the component where its type's module selected it,
/// perhaps to pass it, or the language did to finalize or deallocate (4.5.1.1).
pub fn private_stays()
    ensures { PrivateStays }
{}
