//! The tokens of a file: its UTF-8 checked, its longest matches by the patterns of the token kinds without
//! the white space and comments, and the list of quoted terminals ([`is_quoted`]), which is the only one. It
//! stands on the places of `widl_text`. The contract that is used above: [`Tokens::read`] answers exactly the
//! tokens of the file's one tokenization, or the place at which its bytes stop being UTF-8.
#![tactic(auto)]

mod cut;
mod fault;
mod law;
mod longest;
mod quoted;
mod tables;
mod token;
mod tokens;
mod utf8;

pub use fault::LexFault;
pub use law::each_text_has_one_cut;
pub use quoted::is_quoted;
pub use token::{Token, TokenKind};
pub use tokens::Tokens;
pub use utf8::utf8_fault;
