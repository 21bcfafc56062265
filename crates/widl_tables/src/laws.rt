//! The laws of the choice. Each function does nothing: its contract is the law, for each list of
//! definitions.

ghost use Rattle.std.specs.Prelude.{◌≡◌, ◌↔◌, ◌<◌, ◌^◌, ℕ, length, Bool, true, false, List, Contains};
ghost use Rattle.widl_idl.specs.declared.argument.Optionality.{Optionality as optionality_values};
ghost use Rattle.std.specs.Option.{unwrap_or};
ghost use Rattle.widl_idl.specs.declared.callee.Callee as callees;
ghost use Rattle.widl_idl.specs.declared.defs.Defs as lists;
ghost use Rattle.widl_idl.specs.Counts.{IsNumberedList};
ghost use Rattle.widl_idl.specs.DefinitionTerms.{DefsTerm, defs_term};
ghost use Rattle.widl_idl.specs.Terms.{TypeTerm, TypeTerms};
ghost use Rattle.widl_overload.specs.sets.Entries.{overloads_of};
ghost use Rattle.widl_overload.specs.sets.Sets.{TupleTerm};
ghost use Rattle.widl_value.specs.Classes.{class_of};
ghost use Rattle.widl_value.specs.declared.class.Class as classes;
ghost use Rattle.widl_value.specs.declared.value.Value as values;
ghost use Rattle.widl_tables.specs.declared.entry_test.Test as tests;
ghost use Rattle.widl_tables.specs.declared.pick.Pick.TheVariants.{Entry, Probe};
ghost use Rattle.widl_tables.specs.Kept.{choosing_place, numbers_of, telling_place};
ghost use Rattle.widl_tables.specs.Laws.{IsProbed};
ghost use Rattle.widl_tables.specs.Picks.{pick_member_of, pick_of};
ghost use Rattle.widl_tables.specs.Tests.{is_an_object, meets};

/// An entry that is picked or probed is one of those that are kept.
pub fn picks_are_kept()
    ensures entry { (list : DefsTerm) (entries : List TupleTerm) (place : ℕ) (class : classes.Class) (probed : Bool) (e : ℕ) → pick_of list entries place class probed ≡ Entry e → Contains (numbers_of entries) e }
    ensures probe { (list : DefsTerm) (entries : List TupleTerm) (place : ℕ) (class : classes.Class) (probed : Bool) (e : ℕ) → pick_of list entries place class probed ≡ Probe e → Contains (numbers_of entries) e }
{}

/// A test has one answer for all values of a class.
pub fn tests_ask_classes()
    ensures { (list : DefsTerm) (test : tests.Test) (v w : values.Value) (t : TypeTerm) (opt : optionality_values) → class_of v ≡ class_of w → meets list test (class_of v) t opt ≡ meets list test (class_of w) t opt }
{}

/// Only an object's pick depends on whether it was found to have no method `@iterator`.
pub fn only_objects_are_probed()
    ensures overload { (list : DefsTerm) (entries : List TupleTerm) (place : ℕ) (class : classes.Class) → is_an_object class ≡ false → pick_of list entries place class true ≡ pick_of list entries place class false }
    ensures member { (list : DefsTerm) (members : TypeTerms) (class : classes.Class) → is_an_object class ≡ false → pick_member_of list members class true ≡ pick_member_of list members class false }
{}

/// A probe is asked for exactly where an object that wasn't probed meets no test before that of a
/// sequence, and it names the first entry with a sequence.
pub fn probes_are_of_sequences()
    ensures { (list : DefsTerm) (entries : List TupleTerm) (place : ℕ) (class : classes.Class) (probed : Bool) (e : ℕ) → pick_of list entries place class probed ≡ Probe e ↔ IsProbed list entries place class probed e }
{}

/// Each callee of a list that 32 bits can number, as every merged list, has as few overloads as
/// [`crate::kept()`] asks for.
pub fn merged_lists_have_few_overloads()
    ensures { (defs : lists.Defs) (callee : callees.Callee) → IsNumberedList defs → length (overloads_of (defs_term defs) callee) < 2 ^ 32 }
{}

/// The place that tells entries apart is that by which a value chooses, and 0 where there is none.
pub fn one_entry_is_at_place_0()
    ensures { (list : DefsTerm) (entries : List TupleTerm) → telling_place list entries ≡ unwrap_or (choosing_place list entries) 0 }
{}
