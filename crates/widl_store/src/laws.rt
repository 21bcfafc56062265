//! Laws of stores and of the first store, which take no step.

ghost use Rattle.std.specs.Prelude.{◌≡◌, ◌≤◌, ◌∷◌, ℕ, Contains, List, Option, length, map, slice_get};
ghost use Rattle.std.specs.Option.{option_map};
ghost use Rattle.widl_idl.specs.DefinitionTerms.{DefsTerm, SigTerm, SpaceTerm};
ghost use Rattle.widl_overload.specs.sets.Sets.{TupleTerm, effective_tuples};
ghost use Rattle.widl_store.specs.Bounds.{AreFewObjects, AreSharesKept, AreWithinShares};
ghost use Rattle.widl_store.specs.declared.property.Prop as props;
ghost use Rattle.widl_store.specs.Effects.{added, defined, deleted, put_in, with_inner};
ghost use Rattle.widl_store.specs.Inners.{InnerTerm};
ghost use Rattle.widl_store.specs.Objects.{IsLive, Obj, home_of};
ghost use Rattle.widl_store.specs.declared.homes.Home as homes;
ghost use Rattle.widl_store.specs.OperationFunctions.{AreNamed, HaveOneFunctionEach};
ghost use Rattle.widl_store.specs.Realm.{realm_over, shortest};
ghost use Rattle.widl_text.specs.declared.key.Key as keys;
ghost use Rattle.widl_value.specs.declared.object.ObjRef as references;
ghost use Rattle.widl_value.specs.declared.object.Shape as shapes;
ghost use Rattle.widl_value.specs.declared.value.Value as values;

/// That a live reference stays live, whatever is done to the objects.
pub fn references_stay_live()
    ensures put { (objects : List Obj) (id : ℕ) (key : keys.Key) (value : values.Value) (p : references.ObjRef) → IsLive objects p → IsLive (put_in objects id key value) p }
    ensures defined { (objects : List Obj) (id : ℕ) (key : keys.Key) (prop : props.Prop) (p : references.ObjRef) → IsLive objects p → IsLive (defined objects id key prop) p }
    ensures deleted { (objects : List Obj) (id : ℕ) (key : keys.Key) (p : references.ObjRef) → IsLive objects p → IsLive (deleted objects id key) p }
    ensures added { (objects : List Obj) (inner : InnerTerm) (shape : shapes.Shape) (proto : Option references.ObjRef) (p : references.ObjRef) → IsLive objects p → IsLive (added objects proto shape inner) p }
    ensures inner { (objects : List Obj) (id : ℕ) (inner : InnerTerm) (p : references.ObjRef) → IsLive objects p → IsLive (with_inner objects id inner) p }
{}

/// That the length of an operation's function is that of the shortest tuple of its effective overload set
/// (Web IDL, "Creating an operation function"): no tuple is shorter, and one has that length.
pub fn shortest_length()
    ensures least { (sigs : List SigTerm) (n : ℕ) (t : TupleTerm) → Contains (effective_tuples sigs n) t → shortest sigs ≤ length t.types }
    ensures reached { (sig : SigTerm) (sigs : List SigTerm) (n : ℕ) → (t : TupleTerm) × Contains (effective_tuples (sig ∷ sigs) n) t × (length t.types ≡ shortest (sig ∷ sigs)) }
{}

/// That each operation name of a namespace has exactly one function among the first objects, whatever its
/// overloads, and that the function's property `name` is that name.
pub fn operations_have_one_function()
    ensures one { HaveOneFunctionEach }
    ensures named { AreNamed }
{}

/// That what stands for a definition is live in the first store.
pub fn homes_are_live()
    ensures { (spaces : List SpaceTerm) (home : homes.Home) (obj : references.ObjRef) → home_of (realm_over spaces).homes home ≡ Some obj → IsLive (realm_over spaces).objects obj }
{}

/// That a namespace has as many slots in the first store as it has attributes. No change of a store changes
/// that, and the object of the namespace always has them (`Store::is_sound`).
pub fn attributes_have_slots()
    ensures { (spaces : List SpaceTerm) (i : ℕ) → option_map (λ home. home.slots) (slice_get (realm_over spaces).homes.spaces i) ≡ option_map (λ n. length n.members.attrs) (slice_get spaces i) }
{}

/// That the first store has at most 1,000,018 objects: beside the 18 that are always there they are no more
/// than the namespaces, their partials and their members, which merging keeps at 1,000,000 together.
pub fn first_store_is_bounded()
    ensures shares { AreWithinShares }
    ensures kept { AreSharesKept }
    ensures bounded { AreFewObjects }
{}
