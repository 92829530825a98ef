//! The trait of an object whose state is read from its printed text.

ghost use Rattle.std.specs.Prelude.{◌≡◌, IfOk};

use onll_bank::Bank;
use onll_lease::Lease;
use onll_map::Map;
use onll_queue::Queue;
use onll_text::{AnyObject, TextFault, Texted, read_init};
use onll_words::NoMemory;
use std::alloc::Global;

/// An object whose state is read from its printed text.
pub trait Readable: Texted {
    /// The state that a text says; None exactly where it says none of this object.
    fn read_state(alloc: Global, text: &[u8]) -> Result<Option<Self>, NoMemory>
        ensures { IfOk result (λ state. state ≡ Self.wording.state_of text.now) };
}

impl Readable for Bank {
    fn read_state(alloc: Global, text: &[u8]) -> Result<Option<Bank>, NoMemory> {
        match read_init(alloc, text) {
            Ok(AnyObject::Bank(bank)) => Ok(Some(bank)),
            Err(TextFault::NoMemory) => Err(NoMemory),
            _ => Ok(None),
        }
    }
}

impl Readable for Map {
    fn read_state(alloc: Global, text: &[u8]) -> Result<Option<Map>, NoMemory> {
        match read_init(alloc, text) {
            Ok(AnyObject::Map(map)) => Ok(Some(map)),
            Err(TextFault::NoMemory) => Err(NoMemory),
            _ => Ok(None),
        }
    }
}

impl Readable for Queue {
    fn read_state(alloc: Global, text: &[u8]) -> Result<Option<Queue>, NoMemory> {
        match read_init(alloc, text) {
            Ok(AnyObject::Queue(queue)) => Ok(Some(queue)),
            Err(TextFault::NoMemory) => Err(NoMemory),
            _ => Ok(None),
        }
    }
}

impl Readable for Lease {
    fn read_state(alloc: Global, text: &[u8]) -> Result<Option<Lease>, NoMemory> {
        match read_init(alloc, text) {
            Ok(AnyObject::Lease(lease)) => Ok(Some(lease)),
            Err(TextFault::NoMemory) => Err(NoMemory),
            _ => Ok(None),
        }
    }
}
