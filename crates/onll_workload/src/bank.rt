//! The bank that a workload runs on, and its text.

ghost use Rattle.std.specs.Prelude.{◌≡◌, IfOk};
ghost use Rattle.std.specs.List.{flat_map};
ghost use Rattle.onll_words.specs.Texts.{line_text};
ghost use Rattle.onll_text.specs.CallKind.{calls_of};
ghost use Rattle.onll_text.specs.declared.any_object.Kind.TheVariants as kinds;
ghost use Rattle.onll_workload.specs.Workload.{first_bank};

use onll_bank::{Bank, BankOp};
use onll_model::Object;
use onll_text::{Report, Texted};
use onll_words::NoMemory;
use std::alloc::Global;

/// How many accounts there are.
const ACCOUNTS: u64 = 64;

/// The balance of each account before any call.
const BALANCE: u64 = 1000;

/// The bank before any call.
pub(crate) fn first_bank(alloc: Global) -> Result<Bank, NoMemory>
    ensures { IfOk result (λ bank. bank ≡ first_bank) }
{
    let mut bank = Bank::make(alloc, ACCOUNTS)?;
    for a in 0..ACCOUNTS {
        let _ = bank.apply(BankOp::Deposit { a, x: BALANCE });
    }
    Ok(bank)
}

/// The bank as it is printed, which reads as it.
pub(crate) fn text_of(alloc: Global, bank: &Bank) -> Result<Vec<u8>, NoMemory>
    ensures { IfOk result (λ text. text.items ≡ flat_map line_text ((calls_of kinds.Bank).wording.state_lines bank.now)) }
{
    let mut out = Report::new(alloc);
    bank.put_state(&mut out)?;
    Ok(out.into_bytes())
}
