//! The texts of a bank.

ghost use Rattle.std.specs.Prelude.{◌≡◌, ◌++◌, true, OnOk};
ghost use Rattle.onll_words.specs.Texts.{words_of, line_text};
ghost use Rattle.onll_text.specs.Bytes.{begins_line, with_lines, IsFront};
ghost use Rattle.onll_text.specs.BankText.{deposit_of, withdraw_of, transfer_of, balance_of, total_of, account_line, account_lines};
ghost use Rattle.onll_text.specs.CallKind.{calls_of};
ghost use Rattle.onll_text.specs.ReadBack.{ReadsBack};
ghost use Rattle.onll_text.specs.declared.any_object.AnyObject.TheVariants as objects;
ghost use Rattle.onll_text.specs.declared.any_object.Kind.TheVariants as kinds;

use crate::reason::Reason;
use crate::report::{Piece, Report};
use crate::texted::Texted;
use crate::words::{is_text, no_word, number_reads_back, one_number, three_numbers, two_numbers};
use onll_bank::{Bank, BankOp, BankQuery, BankReply};
use onll_model::{Call, Object};
use onll_words::{Cut, NoMemory, split_word};

fn read_deposit(args: &[u8]) -> Result<Call<Bank>, Reason>
    ensures { result ≡ deposit_of (words_of args.now) }
{
    let (a, x) = two_numbers(args)?;
    Ok(Call::Update(BankOp::Deposit { a, x }))
}

fn read_withdraw(args: &[u8]) -> Result<Call<Bank>, Reason>
    ensures { result ≡ withdraw_of (words_of args.now) }
{
    let (a, x) = two_numbers(args)?;
    Ok(Call::Update(BankOp::Withdraw { a, x }))
}

fn read_transfer(args: &[u8]) -> Result<Call<Bank>, Reason>
    ensures { result ≡ transfer_of (words_of args.now) }
{
    let (a, b, x) = three_numbers(args)?;
    Ok(Call::Update(BankOp::Transfer { a, b, x }))
}

fn read_balance(args: &[u8]) -> Result<Call<Bank>, Reason>
    ensures { result ≡ balance_of (words_of args.now) }
{
    let a = one_number(args)?;
    Ok(Call::Ask(BankQuery::Balance { a }))
}

fn read_total(args: &[u8]) -> Result<Call<Bank>, Reason>
    ensures { result ≡ total_of (words_of args.now) }
{
    no_word(args)?;
    Ok(Call::Ask(BankQuery::Total))
}

/// The line of one account.
fn put_account(a: u64, balance: u64, out: &mut Report) -> Result<(), NoMemory>
    requires { begins_line out.old ≡ true }
    ensures line { OnOk result (out.new ≡ out.old ++ line_text (account_line a balance)) }
    ensures begins { OnOk result (begins_line out.new ≡ true) }
    ensures keeps { IsFront out.old out.new }
    ensures within { IsFront out.new (out.old ++ line_text (account_line a balance)) }
{
    out.words(&[
        Piece::Text(b"account"),
        Piece::Number(a),
        Piece::Number(balance),
    ])?;
    out.end_line()
}

/// The line of each account.
#[tactic(auto, using(crate::proofs::BankReadBack::account_lines_more))]
fn put_accounts(bank: &Bank, out: &mut Report) -> Result<(), NoMemory>
    requires { begins_line out.old ≡ true }
    ensures ok { OnOk result (out.new ≡ with_lines out.old (account_lines 0 bank.now)) }
    ensures keeps { IsFront out.old out.new }
    ensures within { IsFront out.new (with_lines out.old (account_lines 0 bank.now)) }
{
    for a in 0..bank.capacity() {
        put_account(a, bank.balance_of(a), out)?;
    }
    Ok(())
}

/// A law: what is printed of a bank's state reads as that bank. It does nothing when called.
fn bank_reads_back(bank: &Bank)
    ensures { ReadsBack (calls_of kinds.Bank).wording objects.Bank bank.now }
{
    bank.consistent();
}

impl Texted for Bank {
    ghost wording = { (calls_of kinds.Bank).wording };

    ghost object = { objects.Bank };

    fn read_call(line: &[u8]) -> Result<Call<Bank>, Reason> {
        let Some(Cut { word, rest }) = split_word(line) else {
            return Err(Reason::UnknownWord);
        };
        if is_text(word, b"deposit") {
            read_deposit(rest)
        } else if is_text(word, b"withdraw") {
            read_withdraw(rest)
        } else if is_text(word, b"transfer") {
            read_transfer(rest)
        } else if is_text(word, b"balance") {
            read_balance(rest)
        } else if is_text(word, b"total") {
            read_total(rest)
        } else {
            Err(Reason::UnknownWord)
        }
    }

    #[tactic(auto, using(crate::proofs::Keeping::keeping))]
    fn put_op(op: BankOp, out: &mut Report) -> Result<(), NoMemory> {
        match op {
            BankOp::Deposit { a, x } => {
                out.word(b"deposit")?;
                out.number(a)?;
                out.number(x)
            }
            BankOp::Withdraw { a, x } => {
                out.word(b"withdraw")?;
                out.number(a)?;
                out.number(x)
            }
            BankOp::Transfer { a, b, x } => {
                out.word(b"transfer")?;
                out.number(a)?;
                out.number(b)?;
                out.number(x)
            }
        }
    }

    #[tactic(auto, using(crate::proofs::Keeping::keeping))]
    fn put_query(query: BankQuery, out: &mut Report) -> Result<(), NoMemory> {
        match query {
            BankQuery::Balance { a } => {
                out.word(b"balance")?;
                out.number(a)
            }
            BankQuery::Total => out.word(b"total"),
        }
    }

    fn put_reply(reply: BankReply, out: &mut Report) -> Result<(), NoMemory> {
        let piece = match reply {
            BankReply::Done => Piece::Text(b"ok"),
            BankReply::Over => Piece::Text(b"over"),
            BankReply::TooLittle => Piece::Text(b"short"),
            BankReply::NoAccount => Piece::Text(b"no-account"),
            BankReply::Amount(n) => Piece::Number(n),
        };
        out.words(&[piece])
    }

    fn put_state(&self, out: &mut Report) -> Result<(), NoMemory> {
        out.words(&[Piece::Text(b"bank"), Piece::Number(self.capacity())])?;
        out.end_line()?;
        put_accounts(self, out)
    }

    fn op_reads_back(op: BankOp) {
        match op {
            BankOp::Deposit { a, x } => {
                number_reads_back(a);
                number_reads_back(x);
            }
            BankOp::Withdraw { a, x } => {
                number_reads_back(a);
                number_reads_back(x);
            }
            BankOp::Transfer { a, b, x } => {
                number_reads_back(a);
                number_reads_back(b);
                number_reads_back(x);
            }
        }
    }

    fn query_reads_back(query: BankQuery) {
        match query {
            BankQuery::Balance { a } => number_reads_back(a),
            BankQuery::Total => {}
        }
    }

    fn reply_reads_back(reply: BankReply) {
        match reply {
            BankReply::Done => {}
            BankReply::Over => {}
            BankReply::TooLittle => {}
            BankReply::NoAccount => {}
            BankReply::Amount(n) => number_reads_back(n),
        }
    }

    fn state_reads_back(&self) {
        bank_reads_back(self);
    }
}
