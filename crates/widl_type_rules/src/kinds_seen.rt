//! Which kinds of types are among the members of a union that were read so far.

ghost use Rattle.std.specs.Prelude.{◌≡◌};
ghost use Rattle.widl_type_rules.specs.IndistinguishableKinds.{has_objects, is_met, nothing_seen, with_kind};

use widl_overload::Category;

/// Whether a member of each kind was seen.
#[derive(Clone, Copy)]
pub struct KindsSeen {
    /// A member of any kind.
    pub some: bool,
    /// `any` or a promise.
    pub never: bool,
    /// `undefined`.
    pub undefined: bool,
    /// `boolean`.
    pub boolean: bool,
    /// An integer type.
    pub numeric: bool,
    /// A string type or an enumeration.
    pub string: bool,
    /// `object`.
    pub object: bool,
    /// An interface.
    pub interface: bool,
    /// A callback function.
    pub function: bool,
    /// A dictionary, a record or a callback interface.
    pub dictionary_like: bool,
    /// A sequence.
    pub sequence_like: bool,
}

impl KindsSeen {
    /// No member was seen.
    pub fn nothing() -> KindsSeen
        ensures { result ≡ nothing_seen }
    {
        KindsSeen {
            some: false,
            never: false,
            undefined: false,
            boolean: false,
            numeric: false,
            string: false,
            object: false,
            interface: false,
            function: false,
            dictionary_like: false,
            sequence_like: false,
        }
    }

    /// Whether a member of this kind aren't distinguishable from one that was seen, where two interfaces
    /// don't count.
    pub fn meets(&self, kind: Category) -> bool
        ensures { result ≡ is_met self.now kind }
    {
        match kind {
            Category::Never => self.some,
            Category::Undefined => self.never || self.undefined || self.dictionary_like,
            Category::Boolean => self.never || self.boolean,
            Category::Numeric => self.never || self.numeric,
            Category::String => self.never || self.string,
            Category::Object => self.never || self.object || self.meets_object(),
            Category::Interface(_) => self.never || self.object,
            Category::Function => self.never || self.object || self.function,
            Category::DictionaryLike => {
                self.never || self.object || self.undefined || self.dictionary_like
            }
            Category::SequenceLike => self.never || self.object || self.sequence_like,
        }
    }

    /// Whether a member was seen whose values are objects.
    fn meets_object(&self) -> bool
        ensures { result ≡ has_objects self.now }
    {
        self.interface || self.function || self.dictionary_like || self.sequence_like
    }

    /// The kinds with one more.
    pub fn with(&self, kind: Category) -> KindsSeen
        ensures { result ≡ with_kind self.now kind }
    {
        let mut seen = *self;
        seen.some = true;
        match kind {
            Category::Never => seen.never = true,
            Category::Undefined => seen.undefined = true,
            Category::Boolean => seen.boolean = true,
            Category::Numeric => seen.numeric = true,
            Category::String => seen.string = true,
            Category::Object => seen.object = true,
            Category::Interface(_) => seen.interface = true,
            Category::Function => seen.function = true,
            Category::DictionaryLike => seen.dictionary_like = true,
            Category::SequenceLike => seen.sequence_like = true,
        }
        seen
    }
}
