//! The names of an object's areas and of its eras' logs, all made of one.

ghost use Rattle.std.specs.Prelude.{◌≡◌, ◌%◌, ◌++◌, codes, string_bytes, IfOk};
ghost use Rattle.onll_live.specs.Eras.{area_name, era_lock, era_logs};

use onll_open::{log_lock_name, log_name};
use std::alloc::{AllocError, Global};

/// The name with which all of them begin.
fn era_base(alloc: Global, name: &str) -> Result<String, AllocError>
    ensures { IfOk result (λ n. string_bytes n ≡ name.now ++ codes ".era") }
{
    let mut base = String::new(alloc);
    base.push_str(name)?;
    base.push_str(".era")?;
    Ok(base)
}

/// The name of the file of area 0 or 1 of an object.
pub fn area_name(alloc: Global, name: &str, area: u64) -> Result<String, AllocError>
    ensures { IfOk result (λ n. string_bytes n ≡ area_name name.now area) }
{
    let base = era_base(alloc, name)?;
    log_name(alloc, &base, area)
}

/// The name that is locked while an object is worked on.
pub fn era_lock(alloc: Global, name: &str) -> Result<String, AllocError>
    ensures { IfOk result (λ n. string_bytes n ≡ era_lock name.now) }
{
    let base = era_base(alloc, name)?;
    log_lock_name(alloc, &base)
}

/// The name of the logs of an era of this number.
pub fn era_logs(alloc: Global, name: &str, number: u64) -> Result<String, AllocError>
    ensures { IfOk result (λ n. string_bytes n ≡ era_logs name.now number) }
{
    area_name(alloc, name, number % 2)
}
