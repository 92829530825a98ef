//! The heads of the logs of one run.

ghost use Rattle.std.specs.Prelude.{◌≡◌, ◌≤◌, length, IfOk};
ghost use Rattle.onll_model.specs.Limits.{most_threads, greatest_code};
ghost use Rattle.onll_log.specs.Head.{AreHeads, heads_from};

use crate::head::LogHead;
use onll_words::NoMemory;
use std::alloc::Global;

/// The heads of the logs of so many threads. They carry the digest of the bytes that say the object's initial state, so that no log of
/// another object, or of another initial state, is taken for one of these.
pub fn new_heads(
    alloc: Global,
    object: u64,
    init: &[u8],
    threads: u64,
) -> Result<Vec<LogHead>, NoMemory>
    requires object { (1 ≤ object) × (object ≤ greatest_code) }
    requires threads { threads ≤ most_threads }
    ensures heads { IfOk result (λ heads. heads.items ≡ heads_from threads object init.now 0 threads) }
    ensures count { IfOk result (λ heads. length heads.items ≡ threads) }
    ensures fit { IfOk result (λ heads. AreHeads threads 0 heads.items) }
{
    let mut heads = Vec::with_capacity(alloc, threads as usize)?;
    for thread in 0..threads {
        heads.push_reserved(LogHead::new(thread, threads, object, init));
    }
    Ok(heads)
}
