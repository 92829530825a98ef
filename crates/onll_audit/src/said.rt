//! What a report says of a call.

ghost use Rattle.std.specs.Prelude.{◌≡◌};
ghost use Rattle.onll_audit.specs.Form.{answered_said, failed_said, broken_said, said_of};

use crate::fields::{after_text, are_words, is_text, last_field, number_word};

/// What a report says that became of a call.
#[derive(Clone, Copy, Debug, PartialEq, Eq)]
pub enum Said {
    /// It was answered at this place.
    Answered { place: u64 },
    /// Its fence failed; it stands at this place.
    FenceFailed { place: u64 },
    /// The fence of its thread's update at this place had failed.
    Broken { place: u64 },
}

fn answered_said(text: &[u8]) -> Option<Said>
    ensures { result ≡ answered_said text.now }
{
    let last = last_field(text)?;
    let place = number_word(last.rest)?;
    let at = last_field(last.word)?;
    if is_text(at.rest, b"at") && are_words(at.word) {
        Some(Said::Answered { place })
    } else {
        None
    }
}

fn failed_said(text: &[u8]) -> Option<Said>
    ensures { result ≡ failed_said text.now }
{
    let rest = after_text(text, b"fence failed at ")?;
    let place = number_word(rest)?;
    Some(Said::FenceFailed { place })
}

fn broken_said(text: &[u8]) -> Option<Said>
    ensures { result ≡ broken_said text.now }
{
    let rest = after_text(text, b"broken at ")?;
    let place = number_word(rest)?;
    Some(Said::Broken { place })
}

/// What became of a call, by the text after its arrow.
pub(crate) fn said_of(text: &[u8]) -> Option<Said>
    ensures { result ≡ said_of text.now }
{
    if let Some(failed) = failed_said(text) {
        return Some(failed);
    }
    if let Some(broken) = broken_said(text) {
        return Some(broken);
    }
    answered_said(text)
}
