//! What a test that is met decides.

ghost use Rattle.std.specs.Prelude.{◌≡◌};
ghost use Rattle.widl_tables.specs.Decided.{decided as decided_of};

use crate::pick::Pick;

/// The pick where the first entry that meets a test is this one, if any, and the value has to have a
/// method `@iterator` besides or not. None where the later tests decide: no entry meets it, or the value
/// was found to have no such method.
pub(crate) fn decided(probed: bool, needs_method: bool, entry: Option<u32>) -> Option<Pick>
    ensures { result ≡ decided_of probed needs_method entry }
{
    let entry = entry?;
    if !needs_method {
        Some(Pick::Entry(entry))
    } else if probed {
        None
    } else {
        Some(Pick::Probe(entry))
    }
}
