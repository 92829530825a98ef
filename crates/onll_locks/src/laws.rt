//! What holds of locks over any history.

ghost use Rattle.onll_locks.specs.Laws.{AloneLaw, GrantLaw, HoldsLaw, GrantsRiseLaw};

/// In whatever updates stand in a trace, and in whatever is recovered of one: a lock is granted only where nobody holds it; its tokens
/// rise; who was granted it holds it until he releases it; and between two grants the first was released. It does nothing when called.
pub fn locks_law()
    ensures grant { GrantLaw }
    ensures rising { GrantsRiseLaw }
    ensures holds { HoldsLaw }
    ensures alone { AloneLaw }
{}
