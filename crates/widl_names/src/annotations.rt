//! What the annotations before a type say of it.

ghost use Rattle.std.specs.Prelude.{◌≡◌, ◌++◌, List, [], map, option_map, false};
ghost use Rattle.widl_idl.specs.First.{earlier, violation_at};
ghost use Rattle.widl_idl.specs.PlainTypes.{attribute_of};
ghost use Rattle.widl_idl.specs.Resolution.{Note, annotated, earlier_mode, mode_or_wrap, takes_null_to_empty};
ghost use Rattle.widl_idl.specs.Terms.{type_term, IntegerType, StringType};
ghost use Rattle.widl_idl.specs.declared.int_kind.Mode.TheVariants as modes;
ghost use Rattle.widl_idl.specs.WrittenTypes.{annotation_of, notes_of};
ghost use Rattle.widl_names.specs.SaidNotes.{Says, mode_said, said_by};

use widl_idl::tree::ExtendedAttribute;
use widl_idl::{IdlType, IntKind, Mode, TextKind, comes_before};
use widl_text::Place;

/// An annotation that sets the mode of an integer type.
#[derive(Clone, Copy)]
pub struct ModeAnnotation {
    /// The mode that it sets.
    pub mode: Mode,
    /// Where its name stands.
    pub at: Place,
}

/// What a list of annotations says.
#[derive(Clone, Copy)]
pub struct Annotations {
    /// Of those that set a mode, the one whose name comes first.
    pub mode: Option<ModeAnnotation>,
    /// Where the name of the first `[Clamp]` stands.
    pub clamp: Option<Place>,
    /// Where the name of the first `[EnforceRange]` stands.
    pub enforce: Option<Place>,
    /// Whether `[LegacyNullToEmptyString]` is among them.
    pub null_to_empty: bool,
}

impl Annotations {
    /// What no annotation says.
    pub fn none() -> Annotations
        ensures { Says result [] }
    {
        Annotations {
            mode: None,
            clamp: None,
            enforce: None,
            null_to_empty: false,
        }
    }

    /// What the annotations among extended attributes say.
    pub fn of(attributes: &[ExtendedAttribute]) -> Annotations
        ensures { Says result (notes_of (map attribute_of attributes.now)) }
    {
        let mut said = Annotations::none();
        for attribute in attributes {
            said = said.followed_by(Annotations::of_one(attribute));
        }
        said
    }

    /// What these annotations and then others say.
    pub fn followed_by(self, others: Annotations) -> Annotations
        ensures { (notes more : List Note) → Says self notes → Says others more → Says result (notes ++ more) }
    {
        Annotations {
            mode: earlier_mode(self.mode, others.mode),
            clamp: earlier_place(self.clamp, others.clamp),
            enforce: earlier_place(self.enforce, others.enforce),
            null_to_empty: self.null_to_empty || others.null_to_empty,
        }
    }

    /// An integer type with these annotations.
    pub fn integer(self, kind: IntKind) -> IdlType
        ensures { (notes : List Note) → Says self notes → type_term result ≡ annotated notes (IntegerType kind modes.Wrap) }
    {
        IdlType::Int(kind, mode_or_wrap(self.mode))
    }

    /// A string type with these annotations.
    pub fn text(self, kind: TextKind) -> IdlType
        ensures { (notes : List Note) → Says self notes → type_term result ≡ annotated notes (StringType kind false) }
    {
        IdlType::Text {
            kind,
            null_empty: takes_null_to_empty(kind) && self.null_to_empty,
        }
    }

    /// What one extended attribute says.
    fn of_one(attribute: &ExtendedAttribute) -> Annotations
        ensures { result ≡ said_by (annotation_of (attribute_of attribute.now).name.text) (attribute_of attribute.now).name.at }
    {
        let name = attribute.name.text.as_str();
        let at = attribute.name.at;
        if name == "Clamp" {
            Annotations {
                mode: Some(ModeAnnotation {
                    mode: Mode::Clamp,
                    at,
                }),
                clamp: Some(at),
                enforce: None,
                null_to_empty: false,
            }
        } else if name == "EnforceRange" {
            Annotations {
                mode: Some(ModeAnnotation {
                    mode: Mode::Enforce,
                    at,
                }),
                clamp: None,
                enforce: Some(at),
                null_to_empty: false,
            }
        } else {
            Annotations {
                mode: None,
                clamp: None,
                enforce: None,
                null_to_empty: name == "LegacyNullToEmptyString",
            }
        }
    }
}

/// Of two annotations that set a mode, the one whose name comes first.
fn earlier_mode(
    first: Option<ModeAnnotation>,
    second: Option<ModeAnnotation>,
) -> Option<ModeAnnotation>
    ensures { mode_said result ≡ earlier_mode (mode_said first) (mode_said second) }
{
    match (first, second) {
        (None, _) => second,
        (Some(_), None) => first,
        (Some(a), Some(b)) => if comes_before(b.at, a.at) {
            second
        } else {
            first
        },
    }
}

/// Of two places the one that comes first.
fn earlier_place(first: Option<Place>, second: Option<Place>) -> Option<Place>
    ensures { option_map violation_at result ≡ earlier (option_map violation_at first) (option_map violation_at second) }
{
    match (first, second) {
        (None, _) => second,
        (Some(_), None) => first,
        (Some(p), Some(q)) => if comes_before(q, p) { second } else { first },
    }
}

fn mode_or_wrap(said: Option<ModeAnnotation>) -> Mode
    ensures { result ≡ mode_or_wrap (mode_said said) }
{
    match said {
        None => Mode::Wrap,
        Some(annotation) => annotation.mode,
    }
}

/// Whether the annotation for null applies to a string type.
fn takes_null_to_empty(kind: TextKind) -> bool
    ensures { result ≡ takes_null_to_empty kind }
{
    match kind {
        TextKind::Dom | TextKind::Usv => true,
        TextKind::Byte => false,
    }
}
