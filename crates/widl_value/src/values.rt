//! Lists of values.

use crate::value::Value;
use widl_text::Items;

/// Values of the script language in order, as the arguments of a call.
pub type Values = Items<Value>;
