//! The types that are words.

ghost use Rattle.std.specs.Prelude.{◌≡◌, ◌≤◌, IfOk, MatchOption, false, length};
ghost use Rattle.widl_idl.specs.PlainTypes.{form_term};
ghost use Rattle.widl_idl.specs.TypeTrees.{form_of};
ghost use Rattle.widl_syntax.specs.Nesting.{form_levels};
ghost use Rattle.widl_text.specs.declared.place.Place.{Place};
ghost use Rattle.widl_grammar.specs.declared.rule.Rule.TheVariants as rule;
ghost use Rattle.widl_grammar.specs.declared.terminal.Terminal.TheVariants as terminal;
ghost use Rattle.widl_syntax.specs.Reading.{Reads, IsTaken, part, terminal_ahead};
ghost use Rattle.widl_syntax.specs.Signs.{word, ◌⧺◌};
ghost use Rattle.widl_syntax.specs.UnparsedNames.{word_if};
ghost use Rattle.widl_syntax.specs.UnparsedTypes.{written_type, form_signs, integer_words, float_words, string_terminal, container_terminal};
ghost use Rattle.widl_syntax.specs.TypeWords.{IsWordForm, integer_rest, float_rest, is_primitive_word, is_buffer_word, is_type_word, is_container_word};

use super::Reader;
use std::alloc::AllocError;
use widl_grammar::Terminal;
use widl_idl::tree::{BufferKind, Container, FloatKind, TypeForm, WrittenType};
use widl_idl::{IntKind, TextKind};

/// The type other than a primitive one that is this one word, if it is one.
pub fn word_form(word: Terminal) -> Option<TypeForm>
    ensures { MatchOption result (is_type_word word ≡ false) (IsWordForm is_type_word word) }
{
    match word {
        Terminal::Undefined => Some(TypeForm::Undefined),
        Terminal::Object => Some(TypeForm::Object),
        Terminal::Symbol => Some(TypeForm::Symbol),
        Terminal::DomString => Some(TypeForm::Text(TextKind::Dom)),
        Terminal::UsvString => Some(TypeForm::Text(TextKind::Usv)),
        Terminal::ByteString => Some(TypeForm::Text(TextKind::Byte)),
        _ => buffer_form(word),
    }
}

/// The buffer type of a word, if it is one.
fn buffer_form(word: Terminal) -> Option<TypeForm>
    ensures { MatchOption result (is_buffer_word word ≡ false) (IsWordForm is_buffer_word word) }
{
    let kind = match word {
        Terminal::ArrayBuffer => BufferKind::ArrayBuffer,
        Terminal::SharedArrayBuffer => BufferKind::SharedArrayBuffer,
        Terminal::DataView => BufferKind::DataView,
        Terminal::Int8Array => BufferKind::Int8Array,
        Terminal::Int16Array => BufferKind::Int16Array,
        Terminal::Int32Array => BufferKind::Int32Array,
        Terminal::Uint8Array => BufferKind::Uint8Array,
        Terminal::Uint16Array => BufferKind::Uint16Array,
        Terminal::Uint32Array => BufferKind::Uint32Array,
        Terminal::Uint8ClampedArray => BufferKind::Uint8ClampedArray,
        Terminal::BigInt64Array => BufferKind::BigInt64Array,
        Terminal::BigUint64Array => BufferKind::BigUint64Array,
        Terminal::Float16Array => BufferKind::Float16Array,
        Terminal::Float32Array => BufferKind::Float32Array,
        Terminal::Float64Array => BufferKind::Float64Array,
        _ => return None,
    };
    Some(TypeForm::Buffer(kind))
}

/// The generic type of a word, if it is one with one argument.
pub fn container(word: Terminal) -> Option<Container>
    ensures { MatchOption result (is_container_word word ≡ false) (λ kind. word ≡ container_terminal kind) }
{
    match word {
        Terminal::Sequence => Some(Container::Sequence),
        Terminal::AsyncSequence => Some(Container::AsyncSequence),
        Terminal::FrozenArray => Some(Container::FrozenArray),
        Terminal::ObservableArray => Some(Container::ObservableArray),
        _ => None,
    }
}

/// Whether a primitive type begins with the word.
pub fn is_primitive(word: Terminal) -> bool
    ensures { result ≡ is_primitive_word word }
{
    matches!(
        word,
        Terminal::Unsigned
            | Terminal::Short
            | Terminal::Long
            | Terminal::Unrestricted
            | Terminal::Float
            | Terminal::Double
            | Terminal::Boolean
            | Terminal::Byte
            | Terminal::Octet
            | Terminal::Bigint
    )
}

/// A short integer type.
fn short_kind(unsigned: bool) -> IntKind
    ensures rest { integer_rest result ≡ word terminal.Short }
    ensures words { integer_words result ≡ word_if unsigned terminal.Unsigned ⧺ integer_rest result }
{
    if unsigned {
        IntKind::UShort
    } else {
        IntKind::Short
    }
}

/// A long integer type.
fn long_kind(unsigned: bool, twice: bool) -> IntKind
    ensures rest { integer_rest result ≡ word terminal.Long ⧺ word_if twice terminal.Long }
    ensures words { integer_words result ≡ word_if unsigned terminal.Unsigned ⧺ integer_rest result }
{
    match (unsigned, twice) {
        (false, false) => IntKind::Long,
        (true, false) => IntKind::ULong,
        (false, true) => IntKind::LongLong,
        (true, true) => IntKind::ULongLong,
    }
}

/// The type `float`.
fn single_kind(unrestricted: bool) -> FloatKind
    ensures rest { float_rest result ≡ word terminal.Float }
    ensures words { float_words result ≡ word_if unrestricted terminal.Unrestricted ⧺ float_rest result }
{
    if unrestricted {
        FloatKind::UnrestrictedFloat
    } else {
        FloatKind::Float
    }
}

/// The type `double`.
fn double_kind(unrestricted: bool) -> FloatKind
    ensures rest { float_rest result ≡ word terminal.Double }
    ensures words { float_words result ≡ word_if unrestricted terminal.Unrestricted ⧺ float_rest result }
{
    if unrestricted {
        FloatKind::UnrestrictedDouble
    } else {
        FloatKind::Double
    }
}

impl<'t, 's> Reader<'t, 's> {
    /// The type of a constant, which has no `?`.
    pub fn constant_type(&mut self) -> Result<WrittenType, AllocError>
        ensures { IfOk result (λ ty. Reads (part rule.ConstType) (written_type ty) self.old self.new) }
    {
        let at = self.at();
        let form = self.constant_form()?;
        Ok(WrittenType {
            at,
            form,
            question: None,
        })
    }

    /// The form of the type of a constant.
    fn constant_form(&mut self) -> Result<TypeForm, AllocError>
        ensures reads { IfOk result (λ form. Reads (part rule.ConstType) (form_signs (form_of form)) self.old self.new) }
        ensures flat { IfOk result (λ form. form_levels (form_term form) ≡ 1) }
    {
        if is_primitive(self.ahead()) {
            return Ok(self.primitive_form());
        }
        Ok(TypeForm::Named(self.name()?))
    }

    /// A primitive type.
    pub fn primitive_form(&mut self) -> TypeForm
        ensures reads { Reads (part rule.Primitive) (form_signs (form_of result)) self.old self.new }
        ensures flat { form_levels (form_term result) ≡ 1 }
        ensures shorter { length self.new ≤ length self.old }
    {
        match self.ahead() {
            Terminal::Unsigned => self.unsigned_form(),
            Terminal::Short | Terminal::Long => TypeForm::Integer(self.integer_kind(false)),
            Terminal::Unrestricted => self.unrestricted_form(),
            Terminal::Float | Terminal::Double => TypeForm::Float(self.float_kind(false)),
            Terminal::Boolean => self.one_word(TypeForm::Boolean),
            Terminal::Byte => self.one_word(TypeForm::Integer(IntKind::Byte)),
            Terminal::Octet => self.one_word(TypeForm::Integer(IntKind::Octet)),
            _ => self.one_word(TypeForm::BigInt),
        }
    }

    /// Takes the one word of the form.
    fn one_word(&mut self, form: TypeForm) -> TypeForm
        ensures same { result ≡ form }
        ensures taken { (place : Place) × IsTaken place self.old self.new }
    {
        let _word = self.take();
        form
    }

    /// An integer type with the word `unsigned`, which is ahead.
    fn unsigned_form(&mut self) -> TypeForm
        requires { terminal_ahead self.old ≡ terminal.Unsigned }
        ensures reads { Reads (part rule.Primitive) (form_signs (form_of result)) self.old self.new }
        ensures flat { form_levels (form_term result) ≡ 1 }
        ensures shorter { length self.new ≤ length self.old }
    {
        let _unsigned = self.take();
        TypeForm::Integer(self.integer_kind(true))
    }

    /// A floating point type with the word `unrestricted`, which is ahead.
    fn unrestricted_form(&mut self) -> TypeForm
        requires { terminal_ahead self.old ≡ terminal.Unrestricted }
        ensures reads { Reads (part rule.Primitive) (form_signs (form_of result)) self.old self.new }
        ensures flat { form_levels (form_term result) ≡ 1 }
        ensures shorter { length self.new ≤ length self.old }
    {
        let _unrestricted = self.take();
        TypeForm::Float(self.float_kind(true))
    }

    /// An integer type from the word `short` or `long` on.
    fn integer_kind(&mut self, unsigned: bool) -> IntKind
        ensures reads { Reads (part rule.IntegerWord) (integer_rest result) self.old self.new }
        ensures words { integer_words result ≡ word_if unsigned terminal.Unsigned ⧺ integer_rest result }
        ensures shorter { length self.new ≤ length self.old }
    {
        if self.take_if(Terminal::Short).is_some() {
            return short_kind(unsigned);
        }
        let _long = self.take();
        let twice = self.take_if(Terminal::Long).is_some();
        long_kind(unsigned, twice)
    }

    /// A floating point type from the word `float` or `double` on.
    fn float_kind(&mut self, unrestricted: bool) -> FloatKind
        ensures reads { Reads (part rule.FloatWord) (float_rest result) self.old self.new }
        ensures words { float_words result ≡ word_if unrestricted terminal.Unrestricted ⧺ float_rest result }
        ensures shorter { length self.new ≤ length self.old }
    {
        if self.take_if(Terminal::Float).is_some() {
            return single_kind(unrestricted);
        }
        let _double = self.take();
        double_kind(unrestricted)
    }

    /// A string type.
    pub fn string_type(&mut self) -> TextKind
        ensures reads { Reads (part rule.StringType) (word (string_terminal result)) self.old self.new }
        ensures shorter { length self.new ≤ length self.old }
    {
        let ahead = self.ahead();
        let _word = self.take();
        match ahead {
            Terminal::UsvString => TextKind::Usv,
            Terminal::ByteString => TextKind::Byte,
            _ => TextKind::Dom,
        }
    }
}
