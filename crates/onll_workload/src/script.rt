//! The scripts of a workload, by draws of numbers.

ghost use Rattle.std.specs.Prelude.{◌≡◌, ◌≤◌, ◌∷◌, ◌++◌, map, IfOk, OnOk};
ghost use Rattle.onll_model.specs.Limits.{most_updates};
ghost use Rattle.onll_model.specs.declared.call.Call.TheVariants.{Update};
ghost use Rattle.onll_workload.specs.Workload.{IsWorkload, drawn, high_bits, transfer_from, after_transfer, reads_after, calls_from, script_of, scripts_of};

use crate::workload::Workload;
use onll_bank::{Bank, BankOp, BankQuery};
use onll_model::Call;
use onll_words::NoMemory;
use std::alloc::{AllocError, Global};

/// Draws of numbers of 31 bits: the last one left this number.
#[derive(Clone, Copy, Debug)]
struct Draws {
    x: u64,
}

impl Draws {
    fn draw(&mut self) -> u64
        ensures next { self.new.x ≡ drawn self.old.x }
        ensures value { result ≡ high_bits (drawn self.old.x) }
    {
        self.x = self
            .x
            .wrapping_mul(6_364_136_223_846_793_005)
            .wrapping_add(1_442_695_040_888_963_407);
        self.x >> 33
    }

    /// A transfer of less than 100 between two of 64 accounts, by three draws.
    fn transfer(&mut self) -> BankOp
        ensures next { self.new.x ≡ after_transfer self.old.x }
        ensures transfer { result ≡ transfer_from self.old.x }
    {
        let a = self.draw() % 64;
        let b = self.draw() % 64;
        let x = self.draw() % 100;
        BankOp::Transfer { a, b, x }
    }
}

/// Appends the update of this number, from 1, and after every fourth a read of the total.
fn push_update(
    draws: &mut Draws,
    number: u64,
    calls: &mut Vec<Call<Bank>>,
) -> Result<(), AllocError>
    ensures next { draws.new.x ≡ after_transfer draws.old.x }
    ensures calls { OnOk result (calls.new.items ≡ calls.old.items ++ (Update (transfer_from draws.old.x) ∷ reads_after number)) }
{
    calls.push(Call::Update(draws.transfer()))?;
    if number % 4 == 0 {
        calls.push(Call::Ask(BankQuery::Total))?;
    }
    Ok(())
}

/// So many transfers, by draws from this number. After every fourth the total is read.
fn calls_of(alloc: Global, updates: u64, x: u64) -> Result<Vec<Call<Bank>>, AllocError>
    requires { updates ≤ most_updates }
    ensures { IfOk result (λ calls. calls.items ≡ calls_from updates 0 x) }
{
    let mut draws = Draws { x };
    let mut calls = Vec::with_capacity(alloc, (updates + updates / 4) as usize)?;
    for made in 0..updates {
        push_update(&mut draws, made + 1, &mut calls)?;
    }
    Ok(calls)
}

/// The script of a thread.
pub fn script_of(
    alloc: Global,
    workload: Workload,
    thread: u64,
) -> Result<Vec<Call<Bank>>, NoMemory>
    requires { IsWorkload workload }
    ensures { IfOk result (λ script. script.items ≡ script_of workload thread) }
{
    Ok(calls_of(alloc, workload.updates, workload.seed.wrapping_add(thread))?)
}

/// The script of each thread.
pub(crate) fn scripts_of(
    alloc: Global,
    workload: Workload,
) -> Result<Vec<Vec<Call<Bank>>>, NoMemory>
    requires { IsWorkload workload }
    ensures { IfOk result (λ scripts. map (λ script. script.items) scripts.items ≡ scripts_of workload) }
{
    let mut scripts = Vec::with_capacity(alloc, workload.threads as usize)?;
    for thread in 0..workload.threads {
        scripts.push(script_of(alloc, workload, thread)?)?;
    }
    Ok(scripts)
}
