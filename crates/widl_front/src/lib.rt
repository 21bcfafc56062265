//! From the texts of a set of files to the verdict on it: the encoding of all files, their grammar, and the
//! rules of the profile, of merging and of validity over their trees. It stands on the crates of these
//! phases, from `widl_lex` to `widl_valid`, and knows no command line, folder or sink. The contract that is
//! used above is that of [`judge`]: what it answers is the verdict that the texts alone determine
//! ([`laws::one_verdict`]), or out of memory.
#![tactic(auto)]

mod checking;
mod finding;
pub mod laws;
mod lines;
mod one_text;
mod texts;
mod verdict;

pub use checking::judge;
pub use finding::Finding;
pub use lines::{line_of_finding, line_of_refusal};
pub use one_text::judge_one;
pub use texts::Texts;
pub use verdict::Verdict;
