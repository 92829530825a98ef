//! What the tests over the files of the system share: a folder of files, and whether its logs are those of a store in memory.

use onll_outside::MemStore;
use std::fs;
use std::test::Fail;

/// Makes this folder and these files.
pub(crate) fn make_files(
    rt: &HostRuntime,
    folder: &str,
    files: &[(&str, &[u8])],
) -> Result<(), Fail> {
    fs::create_dir(rt, folder)?;
    for (name, bytes) in files {
        fs::write(rt, name, *bytes)?;
    }
    Ok(())
}

/// Removes the logs, and what `make_files` made.
pub(crate) fn remove_files(
    rt: &HostRuntime,
    folder: &str,
    files: &[(&str, &[u8])],
    logs: &[&str],
) -> Result<(), Fail> {
    for name in logs {
        fs::remove_file(rt, name)?;
    }
    for (name, _) in files {
        fs::remove_file(rt, name)?;
    }
    fs::remove_dir(rt, folder)?;
    Ok(())
}

/// Whether a file of the system holds these bytes and no more.
fn is_file(rt: &HostRuntime, name: &str, held: &[u8]) -> bool {
    match fs::read(rt, name) {
        Ok(bytes) => bytes.as_slice() == held,
        Err(_) => false,
    }
}

/// Fails unless the logs in the folder hold what those of this store do.
pub(crate) fn expect_logs(rt: &HostRuntime, memory: &MemStore, logs: &[&str]) -> Result<(), Fail> {
    for name in logs {
        let held = memory.file(name).unwrap_or(b"");
        if !is_file(rt, name, held) {
            return Err(Fail::new(format_args!("{name} holds other bytes")));
        }
    }
    Ok(())
}
