//! The first thing that a test finds not to be so.
ghost use Rattle.std.specs.Prelude.{◌≡◌, None, Some, if◌then◌else◌, IfErr, IfOk, IsSome};
ghost use Rattle.std.specs.Option.{option_or};

use std::test::Fail;

/// The first thing that is not so. A test notes each assertion here and refuses at its end alone.
#[derive(Clone, Copy)]
pub struct Found {
    /// What is wrong, where something is.
    pub wrong: Option<&'static str>,
}

impl Found {
    /// Nothing was found wrong.
    pub const fn new() -> Found
        ensures { result.wrong ≡ None }
    {
        Found { wrong: None }
    }

    /// Notes a text where something is not so, and nothing was wrong before.
    pub fn must(&mut self, is_so: bool, text: &'static str)
        ensures { self.new.wrong ≡ option_or self.old.wrong (if is_so then None else Some text.entry) }
    {
        if !is_so && self.wrong.is_none() {
            self.wrong = Some(text);
        }
    }

    /// Refuses with what was found wrong.
    pub fn ended(self) -> Result<(), Fail>
        ensures good { IfOk result (λ _. self.wrong ≡ None) }
        ensures bad { IfErr result (λ _. IsSome self.wrong) }
    {
        match self.wrong {
            Some(text) => Err(text.into()),
            None => Ok(()),
        }
    }
}
