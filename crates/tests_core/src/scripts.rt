//! Scripts of deposits.

ghost use Rattle.std.specs.Prelude.{◌≤◌, IfOk};
ghost use Rattle.onll_model.specs.Calls.{updates_in};

use onll_bank::{Bank, BankOp};
use onll_model::Call;
use std::alloc::{AllocError, Global};

/// So many deposits of one into account 0.
pub fn deposits(alloc: Global, count: u64) -> Result<Vec<Call<Bank>>, AllocError>
    requires { count ≤ 4096 }
    ensures { IfOk result (λ script. updates_in script.items ≤ 4096) }
{
    let mut script = Vec::new(alloc);
    for _deposit in 0..count {
        script.push(Call::Update(BankOp::Deposit { a: 0, x: 1 }))?;
    }
    Ok(script)
}
