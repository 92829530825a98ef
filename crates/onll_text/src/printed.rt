//! What is printed of a state, as a text of its own.

ghost use Rattle.std.specs.Prelude.{◌≡◌, ◌<◌, ℕ, true, IfOk, slice_index};
ghost use Rattle.onll_text.specs.PrintsBack.{state_text, prints_back};

use crate::report::Report;
use crate::texted::Texted;
use onll_words::NoMemory;
use std::alloc::Global;

/// A law: what a text holds are bytes. It does nothing when called.
fn are_bytes(text: &[u8])
    ensures { (i : ℕ) → slice_index text.now i < 256 }
{
    let _ = text;
}

/// What is printed of a state, which reads as an equal state.
#[tactic(auto, using(crate::proofs::PrintedStates::state_prints_back))]
pub fn print_state<O: Texted>(alloc: Global, object: &O) -> Result<Vec<u8>, NoMemory>
    ensures text { IfOk result (λ text. text.items ≡ state_text O.wording object.now) }
    ensures back { IfOk result (λ text. prints_back O.wording text.items ≡ true) }
{
    object.state_reads_back();
    let mut report = Report::new(alloc);
    object.put_state(&mut report)?;
    are_bytes(report.bytes());
    Ok(report.into_bytes())
}
