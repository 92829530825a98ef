//! A check that says what is wrong.
ghost use Rattle.std.specs.Prelude.{◌≡◌, true, false, IfOk, IfErr};

use std::test::Fail;

/// Refuses with a text where something is not so.
pub fn must(is_so: bool, text: &'static str) -> Result<(), Fail>
    ensures so { IfOk result (λ _. is_so ≡ true) }
    ensures not_so { IfErr result (λ _. is_so ≡ false) }
{
    if is_so { Ok(()) } else { Err(text.into()) }
}
