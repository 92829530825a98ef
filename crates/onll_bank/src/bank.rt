//! The bank.

ghost use Rattle.std.specs.Prelude.{◌≡◌, ℕ, ◌+◌, ◌-◌, ◌^◌, ◌<◌, ◌≤◌, length, replicate, IfOk, slice_index, sum};
ghost use Rattle.onll_model.specs.Limits.{most_elements};
ghost use Rattle.std.proofs.Common.{rules};
ghost use Rattle.onll_bank.specs.Bank.{IsBank, raised, lowered, bank_reply, bank_next};
ghost use Rattle.onll_bank.specs.Object.{bank};

use crate::operation::{BankOp, BankQuery, BankReply};
use onll_model::Object;
use onll_words::{NoMemory, OpRow};
use std::alloc::Global;
use std::marker::Model;

/// Takes x from one account and gives it to the other.
fn move_between(balances: &mut [u64], a: usize, b: usize, x: u64)
    requires a_in { a < length balances.old }
    requires b_in { b < length balances.old }
    requires enough { x ≤ slice_index balances.old a }
    requires fits { sum balances.old < 2 ^ 64 }
    ensures moved { balances.new ≡ raised (lowered balances.old a x) b x }
    ensures total { sum balances.new ≡ sum balances.old }
{
    balances[a] -= x;
    balances[b] += x;
}

/// A row of 1 to 4,096 accounts, numbered from 0 and seen as the list of their balances. The sum of all balances
/// never exceeds `2^64 - 1`.
#[derive(Drop)]
pub struct Bank {
    balances: Vec<u64>,
    total: u64,
}

impl Model for Bank {
    ghost use Rattle.std.specs.Prelude.{◌≡◌, ℕ, List, sum};
    ghost use Rattle.onll_bank.specs.Bank.{IsBank};

    ghost Value = { List ℕ };

    ghost view = { λ s. s.balances.items };

    ghost invariant = { λ s. IsBank s.balances.items × (s.total ≡ sum s.balances.items) };
}

impl Bank {
    /// A bank of this many accounts, each with the balance 0.
    pub fn make(alloc: Global, capacity: u64) -> Result<Bank, NoMemory>
        requires { (1 ≤ capacity) × (capacity ≤ most_elements) }
        ensures { IfOk result (λ made. made ≡ replicate capacity 0) }
    {
        let balances = vec![in alloc; 0; capacity as usize]?;
        Ok(Bank { balances, total: 0 })
    }

    /// What every bank keeps. It does nothing when called.
    pub fn consistent(&self)
        ensures { IsBank self.now }
    {
        let _ = &self.balances;
    }

    /// The balance of an account.
    pub fn balance_of(&self, a: u64) -> u64
        requires { a < length self.now }
        ensures { result ≡ slice_index self.now a }
    {
        self.balances[a as usize]
    }

    fn deposit(&mut self, a: u64, x: u64) -> BankReply
        ensures next { self.new ≡ bank_next self.old (BankOp.Deposit a x) }
        ensures reply { result ≡ bank_reply self.old (BankOp.Deposit a x) }
    {
        if a as usize >= self.balances.len() {
            return BankReply::NoAccount;
        }
        if x > u64::MAX - self.total {
            return BankReply::Over;
        }
        self.balances[a as usize] += x;
        self.total += x;
        BankReply::Done
    }

    fn withdraw(&mut self, a: u64, x: u64) -> BankReply
        ensures next { self.new ≡ bank_next self.old (BankOp.Withdraw a x) }
        ensures reply { result ≡ bank_reply self.old (BankOp.Withdraw a x) }
    {
        if a as usize >= self.balances.len() {
            return BankReply::NoAccount;
        }
        if self.balances[a as usize] < x {
            return BankReply::TooLittle;
        }
        self.balances[a as usize] -= x;
        self.total -= x;
        BankReply::Done
    }

    fn transfer(&mut self, a: u64, b: u64, x: u64) -> BankReply
        ensures next { self.new ≡ bank_next self.old (BankOp.Transfer a b x) }
        ensures reply { result ≡ bank_reply self.old (BankOp.Transfer a b x) }
    {
        if a as usize >= self.balances.len() || b as usize >= self.balances.len() {
            return BankReply::NoAccount;
        }
        if self.balances[a as usize] < x {
            return BankReply::TooLittle;
        }
        move_between(&mut self.balances, a as usize, b as usize, x);
        BankReply::Done
    }
}

impl Object for Bank {
    type Op = BankOp;

    type Query = BankQuery;

    type Reply = BankReply;

    const CODE: u64 = 1;

    ghost CODE = { 1 };

    ghost means = { bank };

    fn apply(&mut self, op: BankOp) -> BankReply {
        match op {
            BankOp::Deposit { a, x } => self.deposit(a, x),
            BankOp::Withdraw { a, x } => self.withdraw(a, x),
            BankOp::Transfer { a, b, x } => self.transfer(a, b, x),
        }
    }

    fn ask(&self, query: BankQuery) -> BankReply {
        match query {
            BankQuery::Balance { a } => match self.balances.get(a as usize) {
                Some(balance) => BankReply::Amount(*balance),
                None => BankReply::NoAccount,
            },
            BankQuery::Total => BankReply::Amount(self.total),
        }
    }

    fn op_row(op: BankOp) -> OpRow {
        let w = match op {
            BankOp::Deposit { a, x } => [1, a, x, 0, 0, 0, 0],
            BankOp::Withdraw { a, x } => [2, a, x, 0, 0, 0, 0],
            BankOp::Transfer { a, b, x } => [3, a, b, x, 0, 0, 0],
        };
        OpRow { w }
    }

    fn op_of_row(row: OpRow) -> Option<BankOp> {
        let [code, a, b, c, d, e, f] = row.w;
        match code {
            1 if c == 0 && d == 0 && e == 0 && f == 0 => Some(BankOp::Deposit { a, x: b }),
            2 if c == 0 && d == 0 && e == 0 && f == 0 => Some(BankOp::Withdraw { a, x: b }),
            3 if d == 0 && e == 0 && f == 0 => Some(BankOp::Transfer { a, b, x: c }),
            _ => None,
        }
    }

    fn copy(&self, alloc: Global) -> Result<Self, NoMemory> {
        Ok(Bank {
            balances: self.balances.to_vec(alloc)?,
            total: self.total,
        })
    }

    fn restore(&mut self, from: &Self) {
        self.balances.copy_from_slice(&from.balances);
        self.total = from.total;
    }

    fn capacity(&self) -> u64 {
        self.balances.len() as u64
    }

    ghost code_in_range = { Prim.search rules };
}
