//! What a word begins.

ghost use Rattle.std.specs.Prelude.{◌≡◌, MatchOption, false};
ghost use Rattle.widl_script_reader.specs.ReadLines.{is_head, head_terminal};
ghost use Rattle.widl_script_reader.specs.ReadExpressions.{is_leaf, IsLeaf, is_formed, Begins, is_link, link_terminal, ends_member};

use widl_lines::Terminal;
use widl_script_tree::Expression;
use widl_value::Number;

/// A primary that is no name, and that its first word doesn't say alone.
#[derive(Clone, Copy, Debug)]
pub(crate) enum Form {
    /// An integer.
    Integer,
    /// A text.
    Text,
    /// `symbol()`.
    Symbol,
    /// `object()`, `object(E)`.
    Object,
    /// `array(E, E)`.
    Array,
    /// `call(E, E, E)`.
    CallWith,
    /// `new(E, E)`.
    New,
}

/// What goes on behind an expression.
#[derive(Clone, Copy, Debug)]
pub(crate) enum Link {
    /// `.NAME`.
    Dot,
    /// `[E]`.
    Bracket,
    /// `(E, E)`.
    Paren,
}

/// The node of a primary that one word says.
pub(crate) fn leaf_of(terminal: Terminal) -> Option<Expression>
    ensures { MatchOption result (is_leaf terminal ≡ false) (λ e. IsLeaf terminal e) }
{
    match terminal {
        Terminal::Undefined => Some(Expression::Undefined),
        Terminal::Null => Some(Expression::Null),
        Terminal::True => Some(Expression::Bool(true)),
        Terminal::False => Some(Expression::Bool(false)),
        Terminal::This => Some(Expression::This),
        Terminal::Nan => Some(Expression::Number(Number::NaN)),
        Terminal::Infinity => Some(Expression::Number(Number::PosInf)),
        Terminal::MinusInfinity => Some(Expression::Number(Number::NegInf)),
        Terminal::IteratorSymbol => Some(Expression::Symbol(0)),
        Terminal::ToPrimitiveSymbol => Some(Expression::Symbol(1)),
        Terminal::ToStringTagSymbol => Some(Expression::Symbol(2)),
        _ => None,
    }
}

/// The form of a primary that begins with the terminal.
pub(crate) fn form_of(terminal: Terminal) -> Option<Form>
    ensures { MatchOption result (is_formed terminal ≡ false) (λ f. Begins f terminal) }
{
    match terminal {
        Terminal::Natural => Some(Form::Integer),
        Terminal::Negative => Some(Form::Integer),
        Terminal::Text => Some(Form::Text),
        Terminal::Symbol => Some(Form::Symbol),
        Terminal::Object => Some(Form::Object),
        Terminal::Array => Some(Form::Array),
        Terminal::Call => Some(Form::CallWith),
        Terminal::New => Some(Form::New),
        _ => None,
    }
}

/// What goes on with the terminal behind an expression.
pub(crate) fn link_of(terminal: Terminal) -> Option<Link>
    ensures { MatchOption result (is_link terminal ≡ false) (λ k. terminal ≡ link_terminal k) }
{
    match terminal {
        Terminal::Dot => Some(Link::Dot),
        Terminal::OpenBracket => Some(Link::Bracket),
        Terminal::OpenParen => Some(Link::Paren),
        _ => None,
    }
}

/// Whether an expression ends in a member behind this.
pub(crate) fn ends_member(link: Link) -> bool
    ensures { result ≡ ends_member link }
{
    match link {
        Link::Dot => true,
        Link::Bracket => true,
        Link::Paren => false,
    }
}

/// A statement of one line.
#[derive(Clone, Copy, Debug)]
pub(crate) enum Head {
    /// `let NAME = E`.
    Let,
    /// `do E`.
    Do,
    /// `set M = E`.
    Set,
    /// `define` in its four forms.
    Define,
    /// `delete M`.
    Delete,
    /// `return E`.
    Return,
    /// `throw E`.
    Throw,
    /// `show E`.
    Show,
}

/// The statement of one line that begins with the terminal.
pub(crate) fn head_of(terminal: Terminal) -> Option<Head>
    ensures { MatchOption result (is_head terminal ≡ false) (λ h. terminal ≡ head_terminal h) }
{
    match terminal {
        Terminal::Let => Some(Head::Let),
        Terminal::Do => Some(Head::Do),
        Terminal::Set => Some(Head::Set),
        Terminal::Define => Some(Head::Define),
        Terminal::Delete => Some(Head::Delete),
        Terminal::Return => Some(Head::Return),
        Terminal::Throw => Some(Head::Throw),
        Terminal::Show => Some(Head::Show),
        _ => None,
    }
}
