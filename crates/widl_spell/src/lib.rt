//! How definitions are spelled: names and types as IDL text, and the order of interface ids. It stands on
//! `widl_text`, the definitions of `widl_idl` and the list of quoted terminals of `widl_lex`. The contracts
//! that are used above: [`push_name`] and [`push_type`] add exactly a name's and a type's text, and
//! [`id_order`] lists the interfaces in the order of their ids.
#![tactic(auto)]

mod ids;
mod names;
mod ready;
mod type_texts;

pub use ids::id_order;
pub use names::{push_bare_name, push_name, sign_before};
pub use type_texts::push_type;
