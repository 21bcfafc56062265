//! The laws of conversions. Each function does nothing: its contract is the law, for each list of
//! definitions and whatever is built.

ghost use Rattle.widl_idl.specs.DefinitionTerms.{DefsTerm};
ghost use Rattle.widl_idl.specs.declared.text_kind.TextKind.{TextKind};
ghost use Rattle.widl_idl.specs.Terms.{TypeTerm};
ghost use Rattle.widl_value.specs.declared.object.ObjRef.{ObjRef};
ghost use Rattle.widl_steps.specs.Built.{Built};
ghost use Rattle.widl_steps.specs.ContainerLaws.{MembersAreReadInOrder, MembersStandInOrder, NamesAscend, RecordsAskOnce, SequencesAskOnce, SequencesTakeTurns};
ghost use Rattle.widl_steps.specs.Laws.{AsksAreTalked, BeginningsHaveOneNext, ChainsEnd, EachTaskEnds, FaultsEnd, PartsMakeWholes, ValidChainsEnd};
ghost use Rattle.widl_steps.specs.ResultLaws.{ItemsComeFirst, UnitsAreAllThatIsSaid};
ghost use Rattle.widl_steps.specs.ResolutionLaws.{OthersAreNotLookedAt, ValuesAreCounted};
ghost use Rattle.widl_steps.specs.Rules.{rule};
ghost use Rattle.widl_steps.specs.UnionLaws.{UnionsAskAsMembers};

/// Exactly one thing comes next after what begins a whole conversation.
pub fn has_one_next()
    ensures { (built : Built) (list : DefsTerm) → BeginningsHaveOneNext (rule built list) }
{}

/// An ask comes next exactly where some whole conversation goes on with it.
pub fn asks_are_talked()
    ensures { (built : Built) (list : DefsTerm) → ChainsEnd built list → AsksAreTalked (rule built list) }
{}

/// Over the list of a valid set no chain of more dictionaries begins than may be.
pub fn valid_chains_end()
    ensures { ValidChainsEnd }
{}

/// After a thrown answer nothing is asked: the conversation ends with the value that was thrown.
pub fn faults_end()
    ensures { (built : Built) (list : DefsTerm) → FaultsEnd (rule built list) }
{}

/// Each task has a whole conversation.
pub fn tasks_end()
    ensures { (built : Built) (list : DefsTerm) → ChainsEnd built list → EachTaskEnds (rule built list) }
{}

/// The conversation of a whole is those of its parts, one after another.
pub fn parts_make_wholes()
    ensures { (built : Built) (list : DefsTerm) → PartsMakeWholes (rule built list) }
{}

/// The overload that is chosen has a value for each argument of the call that counts, and for each of its
/// declared ones after them but a variadic one.
pub fn values_are_counted()
    ensures { (built : Built) (list : DefsTerm) → ValuesAreCounted (rule built list) list }
{}

/// Nothing is asked of an argument beyond those that count: what is said of a call is the same whatever
/// stands there.
pub fn others_are_not_looked_at()
    ensures { (built : Built) (list : DefsTerm) → OthersAreNotLookedAt (rule built list) list }
{}

/// A sequence reads `@iterator` once and `next` once, and asks its iterator nothing else than a turn.
pub fn sequences_ask_once()
    ensures { (built : Built) (list : DefsTerm) (t : TypeTerm) → SequencesAskOnce built list t }
{}

/// A sequence of so many elements comes of one turn more of its iterator.
pub fn sequences_take_turns()
    ensures { (built : Built) (list : DefsTerm) → SequencesTakeTurns built list }
{}

/// A record asks for the own keys once, and looks at each property once and reads it once.
pub fn records_ask_once()
    ensures { (built : Built) (list : DefsTerm) (key : TextKind) (t : TypeTerm) (o : ObjRef) → RecordsAskOnce built list key t o }
{}

/// The members that a dictionary declares are sorted by their names.
pub fn names_ascend()
    ensures { NamesAscend }
{}

/// Of a dictionary's object each member is read once, in their order.
pub fn members_are_read_in_order()
    ensures { (built : Built) (list : DefsTerm) → MembersAreReadInOrder built list }
{}

/// On the way of an array or an object to script the conversations of its items come first, in their order; then
/// a unit is taken for each, and then it is made.
pub fn items_come_first()
    ensures { (built : Built) (list : DefsTerm) → ItemsComeFirst built list }
{}

/// Of a container of so many items with no container in it so many units are said, and one ask for it.
pub fn units_are_all_that_is_said()
    ensures { (built : Built) (list : DefsTerm) → UnitsAreAllThatIsSaid built list }
{}

/// A conversion to a union is that to one of its flattened members, behind at most one Get of `@iterator`; or
/// it gives null, with nothing asked.
pub fn unions_ask_as_members()
    ensures { (built : Built) (list : DefsTerm) → UnionsAskAsMembers built list }
{}

/// The members of a dictionary's value are its own and inherited ones, in the order of their conversion, each
/// once.
pub fn members_stand_in_order()
    ensures { (built : Built) (list : DefsTerm) → MembersStandInOrder built list }
{}
