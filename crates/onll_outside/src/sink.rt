//! The trait of a sink, which takes the output.

ghost use Rattle.onll_outside.specs.Views.{SinkView, PutOf};

use crate::OutsideFault;

/// What the output is put into, with a count of the puts that failed.
pub trait Sink {
    ghost held: { Self → SinkView };

    /// Puts all the bytes, or, where it is refused, some of the first of them.
    fn put(&mut self, bytes: &[u8]) -> Result<(), OutsideFault>
        ensures { PutOf (held self.old) (held self.new) bytes.now result };
}
