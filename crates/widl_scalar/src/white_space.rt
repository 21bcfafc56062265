//! White space around numerals.

ghost use Rattle.std.specs.Prelude.{◌≡◌, reverse};
ghost use Rattle.widl_scalar.specs.WhiteSpace.{is_white, trimmed, without_front};

/// The text without the white space at its front and at its end (ECMA-262, "TrimString").
#[tactic(auto, unfolding(crate::specs::WhiteSpace::trimmed))]
pub(crate) fn trimmed(text: &[u16]) -> &[u16]
    ensures { result.now ≡ trimmed text.now }
{
    without_end(without_front(text))
}

fn without_front(text: &[u16]) -> &[u16]
    ensures { result.now ≡ without_front text.now }
{
    let mut rest = text;
    while let [unit, after @ ..] = rest {
        if !is_white(*unit) {
            return rest;
        }
        rest = after;
    }
    rest
}

fn without_end(text: &[u16]) -> &[u16]
    ensures { result.now ≡ reverse (without_front (reverse text.now)) }
{
    let mut rest = text;
    while let Some((unit, before)) = rest.split_last() {
        if !is_white(*unit) {
            return rest;
        }
        rest = before;
    }
    rest
}

/// Whether the unit is white space or ends a line (ECMA-262, "White Space", "Line Terminators").
#[tactic(auto, unfolding(crate::specs::WhiteSpace::is_white))]
fn is_white(unit: u16) -> bool
    ensures { result ≡ is_white unit }
{
    (0x9 <= unit && unit <= 0xD)
        || unit == 0x20
        || unit == 0xA0
        || unit == 0x1680
        || (0x2000 <= unit && unit <= 0x200A)
        || unit == 0x2028
        || unit == 0x2029
        || unit == 0x202F
        || unit == 0x205F
        || unit == 0x3000
        || unit == 0xFEFF
}
