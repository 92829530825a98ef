//! The laws of a lease table.

ghost use Rattle.onll_lease.specs.Laws.{RisingLaw, TokenCountLaw, HeldLaw, HeldStaysLaw, StaleLaw, LeaseRefusedLaw, EntryLaw, ZeroLaw};

/// A law: the tokens that are granted for a resource only rise, one by one. It does nothing when called.
pub fn token_law()
    ensures rising { RisingLaw }
    ensures counted { TokenCountLaw }
{}

/// A law: nobody takes a resource that another holds. It does nothing when called.
pub fn held_law()
    ensures refused { HeldLaw }
    ensures kept { HeldStaysLaw }
{}

/// A law: an old token does nothing, and nor does what is refused. It does nothing when called.
pub fn stale_law()
    ensures stale { StaleLaw }
    ensures refused { LeaseRefusedLaw }
{}

/// A law: a resource whose token is 0 was never granted, and nobody has that token. It does nothing when called.
pub fn zero_law()
    ensures entries { EntryLaw }
    ensures zero { ZeroLaw }
{}
