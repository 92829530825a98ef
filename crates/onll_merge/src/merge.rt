//! The merge of decoded logs.

ghost use Rattle.std.specs.Prelude.{◌≡◌, ◌≤◌, ◌⊎◌, length, Ok, Err, MatchResult};
ghost use Rattle.onll_model.specs.Limits.{most_threads};
ghost use Rattle.onll_merge.specs.Merge.{contents_in, merge};
ghost use Rattle.onll_merge.specs.declared.fault.RecoverFault.TheVariants.{NoMemory};

use crate::fault::RecoverFault;
use crate::logs::{check_heads, check_orders, gather, top_of_logs};
use crate::numbers::check_numbers;
use onll_log::{Decoded, LogHead};
use onll_model::Node;
use std::alloc::Global;

/// The nodes of one run, from place 1 to the greatest that an entry of its logs has, as the logs hold them; or the
/// first reason why these logs are not those of one run with these heads.
pub fn recover(
    alloc: Global,
    logs: &[Decoded],
    heads: &[LogHead],
) -> Result<Vec<Node>, RecoverFault>
    requires logs { length logs.now ≤ most_threads }
    requires heads { length heads.now ≡ length logs.now }
    ensures { MatchResult result (λ v. merge heads.now (contents_in logs.now) ≡ Ok v.items)
        (λ e. (e ≡ NoMemory) ⊎ (merge heads.now (contents_in logs.now) ≡ Err e)) }
{
    check_heads(logs, heads)?;
    check_orders(logs)?;
    let top = top_of_logs(logs);
    let nodes = gather(alloc, logs, top)?;
    check_numbers(&nodes)?;
    Ok(nodes)
}
