//! An initial bank in the making.

ghost use Rattle.std.specs.Prelude.{◌≡◌, ◌≤◌, MatchResult, IfOk, OnErr, Ok, Err};
ghost use Rattle.onll_model.specs.Limits.{most_elements};
ghost use Rattle.onll_text.specs.Refusal.{Fails};
ghost use Rattle.onll_text.specs.Init.{object_of};
ghost use Rattle.onll_text.specs.declared.any_object.Kind.TheVariants as kinds;
ghost use Rattle.onll_text.specs.BankText.{no_accounts, with_account, with_account_line};

use crate::any_object::AnyObject;
use crate::init::{Initial, add_lines};
use crate::reason::{Reason, TextFault};
use crate::words::{is_text, two_numbers};
use onll_bank::{Bank, BankOp, BankReply};
use onll_model::Object;
use onll_words::{Cut, Lines, NoMemory, split_word};
use std::alloc::Global;
use std::marker::Model;

/// An initial bank in the making, and which of its accounts were named.
#[derive(Drop)]
pub(crate) struct BankInit {
    bank: Bank,
    named: Vec<bool>,
}

impl Model for BankInit {
    ghost use Rattle.std.specs.Prelude.{◌≡◌, length};
    ghost use Rattle.onll_text.specs.BankText.{Accounts};

    ghost Value = { Accounts };

    ghost view = { λ s. record { balances = s.bank; named = s.named.items } };

    ghost invariant = { λ s. length s.named.items ≡ length s.bank };
}

impl BankInit {
    /// A bank of this many accounts, of which none was named.
    pub(crate) fn begin(alloc: Global, capacity: u64) -> Result<BankInit, NoMemory>
        requires { (1 ≤ capacity) × (capacity ≤ most_elements) }
        ensures { IfOk result (λ made. made ≡ no_accounts capacity) }
    {
        let bank = Bank::make(alloc, capacity)?;
        let named = vec![in alloc; false; capacity as usize]?;
        Ok(BankInit { bank, named })
    }

    pub(crate) fn finish(self) -> Bank
        ensures { result ≡ self.balances }
    {
        self.bank
    }

    /// Puts the balance of an account in, by a deposit.
    fn add_account(&mut self, a: u64, balance: u64) -> Result<(), Reason>
        ensures added { MatchResult result (λ _. with_account self.old (a, balance) ≡ Ok self.new)
            (λ e. with_account self.old (a, balance) ≡ Err e) }
        ensures refused { OnErr result (self.new ≡ self.old) }
    {
        if a >= self.bank.capacity() {
            return Err(Reason::OutOfRange);
        }
        if self.named[a as usize] {
            return Err(Reason::Repeated);
        }
        match self.bank.apply(BankOp::Deposit { a, x: balance }) {
            BankReply::Over => Err(Reason::TooLarge),
            _ => {
                self.named[a as usize] = true;
                Ok(())
            }
        }
    }
}

impl Initial for BankInit {
    ghost with_line = { with_account_line };

    fn add_line(&mut self, line: &[u8]) -> Result<(), Reason> {
        let Some(Cut { word, rest }) = split_word(line) else {
            return Err(Reason::UnknownWord);
        };
        if !is_text(word, b"account") {
            return Err(Reason::UnknownWord);
        }
        let (a, balance) = two_numbers(rest)?;
        self.add_account(a, balance)
    }
}

/// The bank of this many accounts, with the lines that are left.
pub(crate) fn read_bank(
    alloc: Global,
    capacity: u64,
    lines: &mut Lines<'_>,
) -> Result<AnyObject, TextFault>
    requires { (1 ≤ capacity) × (capacity ≤ most_elements) }
    ensures { MatchResult result (λ object. object_of kinds.Bank capacity lines.old ≡ Ok object)
        (λ fault. Fails fault (object_of kinds.Bank capacity lines.old)) }
{
    let mut made = BankInit::begin(alloc, capacity)?;
    add_lines(&mut made, lines)?;
    Ok(AnyObject::Bank(made.finish()))
}
