//! What is known of a thread's earlier calls, and whether the outcome and the place of the next one fit it.

ghost use Rattle.std.specs.Prelude.{◌≡◌, ◌<◌, ◌+◌, ◌^◌};
ghost use Rattle.onll_audit.specs.Verdict.{no_past, past_update, past_read, next_past, higher, update_outcome, outcome_right, is_above, update_place, place_right};

use crate::said::Said;
use onll_model::Call;
use onll_text::Texted;

/// What is known of a thread's earlier calls.
#[derive(Clone, Copy, Debug, PartialEq, Eq)]
pub(crate) struct Past {
    pub calls: u64,
    /// How many of them are updates with a place.
    pub placed: u64,
    /// The highest place at which one was answered.
    pub answered: u64,
    /// The highest place of a read.
    pub read: Option<u64>,
    /// The place of the update whose fence failed.
    pub failed: Option<u64>,
}

/// The higher of a place and this one.
fn higher(place: Option<u64>, other: u64) -> Option<u64>
    ensures { result ≡ higher place other }
{
    match place {
        Some(p) => Some(p.max(other)),
        None => Some(other),
    }
}

impl Past {
    /// No call yet.
    pub fn none() -> Past
        ensures { result ≡ no_past }
    {
        Past {
            calls: 0,
            placed: 0,
            answered: 0,
            read: None,
            failed: None,
        }
    }

    /// The same with one update more, of this outcome.
    fn with_update(self, said: Said) -> Past
        requires calls { self.calls + 1 < 2 ^ 64 }
        requires placed { self.placed + 1 < 2 ^ 64 }
        ensures { result ≡ past_update self said }
    {
        let calls = self.calls + 1;
        match said {
            Said::Answered { place } => Past {
                calls,
                placed: self.placed + 1,
                answered: self.answered.max(place),
                ..self
            },
            Said::FenceFailed { place } => Past {
                calls,
                placed: self.placed + 1,
                failed: Some(place),
                ..self
            },
            Said::Broken { .. } => Past { calls, ..self },
        }
    }

    /// The same with one read more, of this outcome.
    fn with_read(self, said: Said) -> Past
        requires calls { self.calls + 1 < 2 ^ 64 }
        ensures { result ≡ past_read self said }
    {
        let calls = self.calls + 1;
        match said {
            Said::Answered { place } => Past {
                calls,
                answered: self.answered.max(place),
                read: higher(self.read, place),
                ..self
            },
            _ => Past { calls, ..self },
        }
    }

    /// The same with one call more.
    pub fn with<O: Texted>(self, call: &Call<O>, said: Said) -> Past
        requires calls { self.calls + 1 < 2 ^ 64 }
        requires placed { self.placed + 1 < 2 ^ 64 }
        ensures { result ≡ next_past self call.now said }
    {
        match call {
            Call::Update(_) => self.with_update(said),
            Call::Ask(_) => self.with_read(said),
        }
    }
}

fn update_outcome(failed: Option<u64>, said: Said) -> bool
    ensures { result ≡ update_outcome failed said }
{
    match failed {
        None => !matches!(said, Said::Broken { .. }),
        Some(failed) => match said {
            Said::Broken { place } => place == failed,
            _ => false,
        },
    }
}

/// Whether the outcome is one that the call can have there.
pub(crate) fn outcome_right<O: Texted>(past: Past, call: &Call<O>, said: Said) -> bool
    ensures { result ≡ outcome_right past call.now said }
{
    match call {
        Call::Update(_) => update_outcome(past.failed, said),
        Call::Ask(_) => matches!(said, Said::Answered { .. }),
    }
}

fn is_above(read: Option<u64>, place: u64) -> bool
    ensures { result ≡ is_above read place }
{
    match read {
        Some(p) => p < place,
        None => true,
    }
}

/// Whether the place of an update is that of its thread's node of this count, and no earlier read reaches it.
fn update_place(places: &[u64], past: Past, place: u64) -> bool
    ensures { result ≡ update_place places.now past place }
{
    match places.get(past.placed as usize) {
        Some(p) => *p == place && is_above(past.read, place),
        None => false,
    }
}

/// Whether the place is one that the call can have there, by the places of its thread's nodes and the count of all nodes.
pub(crate) fn place_right<O: Texted>(
    places: &[u64],
    count: u64,
    past: Past,
    call: &Call<O>,
    said: Said,
) -> bool
    ensures { result ≡ place_right places.now count past call.now said }
{
    match call {
        Call::Update(_) => match said {
            Said::Answered { place } => update_place(places, past, place),
            Said::FenceFailed { place } => update_place(places, past, place),
            Said::Broken { .. } => true,
        },
        Call::Ask(_) => match said {
            Said::Answered { place } => place <= count && past.answered <= place,
            _ => true,
        },
    }
}
