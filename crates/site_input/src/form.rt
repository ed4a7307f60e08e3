//! In which form a site comes, by its first byte.

ghost use Rattle.std.specs.Prelude.{◌≡◌, ℕ, ◌≤◌, ◌↔◌, List, Some, None, IsTrue, IfOk, OnOk, OnErr};
ghost use Rattle.cable_definitions.specs.Stream.{FaultsRose, FaultsOnlyRise};
ghost use Rattle.cable_text.specs.Lines.{ahead};
ghost use Rattle.run_definitions.specs.Bytes.{IsLineForm};

use cable_text::{Failed, Lines, Source};

/// Whether the input to come is a site in lines: whether its first byte is `s`, which stays.
pub(crate) fn is_in_lines<S: Source>(lines: &mut Lines, src: &mut S) -> Result<bool, Failed>
    requires { lines.old.fault ≡ None }
    ensures form { IfOk result (λ yes. (bytes : List ℕ) → ahead lines.old (S.state src.old) ≡ Some bytes → (IsTrue yes ↔ IsLineForm bytes)) }
    ensures same { OnOk result (ahead lines.new (S.state src.new) ≡ ahead lines.old (S.state src.old)) }
    ensures lines { OnOk result (lines.new.lines ≡ lines.old.lines) }
    ensures no_fault { OnOk result (lines.new.fault ≡ None) }
    ensures failed { OnErr result (FaultsRose (S.state src.old) (S.state src.new)) }
    ensures count { FaultsOnlyRise (S.state src.old) (S.state src.new) }
{
    match lines.peek(src) {
        Ok(first) => Ok(is_s(first)),
        Err(_) => Err(Failed),
    }
}

/// Whether the first byte is `s`.
fn is_s(first: Option<u8>) -> bool
    ensures { IsTrue result ↔ (first ≡ Some 115) }
{
    matches!(first, Some(b's'))
}
