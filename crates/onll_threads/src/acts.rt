//! Calls on a pass, with what they add to what was done on it.

ghost use Rattle.std.specs.Prelude.{◌≡◌, [], ◌∷◌};
ghost use Rattle.onll_model.specs.declared.call.Call.TheVariants.{Ask as AskCall};
ghost use Rattle.onll_model.specs.declared.call.CallEnd.TheVariants.{Answered as AnsweredEnd};
ghost use Rattle.onll_shared.specs.Passes.{IsTied};
ghost use Rattle.onll_shared.specs.Calls.{HasUpdated};
ghost use Rattle.onll_threads.specs.Acts.{Acts, HasReadSo, calls_of, ends_of, received, reply_in, seen_in};

use crate::seat::Place;
use onll_model::Object;
use onll_outside::FreeGate;
use onll_pmem::Pmem;
use onll_shared::{Pass, Receipt, UpdateFault};
use std::sync::Wait;

/// The reply of an update.
fn reply_of<O: Object>(updated: Result<Receipt<O>, UpdateFault>) -> Result<O::Reply, UpdateFault>
    ensures { result ≡ reply_in updated }
{
    match updated {
        Ok(receipt) => Ok(receipt.reply),
        Err(fault) => Err(fault),
    }
}

/// Updates the object.
pub(crate) fn update_on<R: Wait, O: Object, P: Pmem>(
    rt: &R,
    at: &Place<O>,
    pass: &mut Pass<O, P>,
    op: O::Op,
) -> Result<O::Reply, UpdateFault>
    requires { IsTied O.means P.means at.now.onll pass.old }
    ensures updated { HasUpdated O.means P.means at.now.onll op pass.old pass.new (received (seen_in pass.new) result) }
    ensures acts { Acts O.means P.means at.now.onll (calls_of op result) (ends_of (seen_in pass.new) result) pass.old pass.new }
{
    reply_of(at.onll.update(rt, pass, op, &FreeGate))
}

/// Answers a query.
pub(crate) fn read_on<O: Object, P: Pmem>(
    at: &Place<O>,
    pass: &mut Pass<O, P>,
    query: O::Query,
) -> O::Reply
    requires { IsTied O.means P.means at.now.onll pass.old }
    ensures read { HasReadSo O.means P.means at.now.onll query pass.old pass.new result }
    ensures acts { Acts O.means P.means at.now.onll (AskCall query ∷ []) (AnsweredEnd result (seen_in pass.new) ∷ [])
        pass.old pass.new }
{
    at.onll.read(pass, query).reply
}
