//! What executing a source keeps: laws about the single things that a source does, over the definitions
//! alone. A world that fits is left as one that fits.
#![tactic(auto)]

ghost use Rattle.mh_world_laws.specs.Laws.{BeginsFits, BindingsKeep, BlocksHaveParts, BuiltinsKeep, CalleesKeep, CountedKeeps, DefinitionsHaveParts, EntersKeep, FreezesKeep, FunctionsKeep, GetItemsKeep, ItemsKeep, ItemsOfKeep, LaterOn, LaterSelf, LeavesKeep, MarksKeep, NamesKeep, NewListsKeep, OperatedKeep, OperationsInKeep, OperationsKeep, PlainAreOf, PopsKeep, PushesKeep, ReadsKeep, ReturnsKeep, ScopesHold, SetItemsKeep, StatementsHaveParts, ValuesStay};

/// What stands in a source is of one. Does nothing.
pub fn sources_law()
    ensures statements { StatementsHaveParts }
    ensures blocks { BlocksHaveParts }
    ensures definitions { DefinitionsHaveParts }
{}

/// Values of a design are values of each later one. Does nothing.
pub fn values_law()
    ensures values { ValuesStay }
    ensures plain { PlainAreOf }
    ensures same { LaterSelf }
    ensures on { LaterOn }
    ensures scopes { ScopesHold }
{}

/// Names, lists and their items keep a world that fits. Does nothing.
pub fn names_law()
    ensures begins { BeginsFits }
    ensures counted { CountedKeeps }
    ensures names { NamesKeep }
    ensures bindings { BindingsKeep }
    ensures pushes { PushesKeep }
    ensures pops { PopsKeep }
    ensures new_lists { NewListsKeep }
    ensures set_items { SetItemsKeep }
    ensures get_items { GetItemsKeep }
    ensures items { ItemsKeep }
    ensures all_items { ItemsOfKeep }
{}

/// Operations keep a world that fits, and give values of its design. Does nothing.
pub fn operations_law()
    ensures operated { OperatedKeep }
    ensures operations { OperationsKeep }
    ensures operations_in { OperationsInKeep }
    ensures builtins { BuiltinsKeep }
{}

/// Definitions and calls of functions keep a world that fits. Does nothing.
pub fn functions_law()
    ensures marks { MarksKeep }
    ensures functions { FunctionsKeep }
    ensures callees { CalleesKeep }
    ensures enters { EntersKeep }
    ensures returns { ReturnsKeep }
    ensures leaves { LeavesKeep }
{}

/// Reading a generator keeps a world that fits. Does nothing.
pub fn generators_law()
    ensures frozen { FreezesKeep }
    ensures reads { ReadsKeep }
{}
