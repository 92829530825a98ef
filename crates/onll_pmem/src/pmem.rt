//! The trait of a persistent device: lines that are written, written back and fenced.

ghost use Rattle.std.specs.Prelude.{◌≡◌, ◌+◌, ◌-◌, ◌^◌, ◌<◌, ◌≤◌, ◌++◌, Bool, is_some, length, slice_set, IfSome, OnOk, OnErr};
ghost use Rattle.onll_pmem.specs.Device.{line_at, zero_lines, FillsWords};
ghost use Rattle.onll_pmem.specs.Pmem.{DeviceView, words_of, told_written, told_backed, told_fenced, ToldLines, EightWords};

use onll_words::Line;
use thiserror::Error;

/// A fence did not take effect: nothing new is durable, and what was pending stays pending.
#[derive(Clone, Copy, Debug, PartialEq, Eq, Error)]
#[error("the fence failed")]
pub struct FenceFailed;

/// A row of lines that outlives a crash: a line is durable once it was written, written back and fenced with success.
/// After a crash each other word that was written since is, by itself, its fenced value or the one written since.
pub trait Pmem {
    ghost means: { Self → DeviceView };

    /// Whether devices of this type tell their fenced words.
    ghost tells: { Bool };

    /// How many lines there are, each of eight words. A device that tells which lines are written back tells it of each line.
    fn lines(&self) -> u64
        ensures eight { EightWords (means self.now).read }
        ensures lines { result ≡ length (means self.now).read }
        ensures told { ToldLines (means self.now).told (means self.now).read };

    /// A line as it was last written, durable or not.
    fn read(&self, line: u64) -> Line
        requires { line < length (means self.now).read }
        ensures { result.w ≡ line_at (means self.now).read line };

    /// The first lines as they were last written, after which all are zero; None where a device doesn't hold its lines as such.
    fn held(&self) -> Option<&[Line]>
        ensures within { IfSome result (λ front. length front.now ≤ length (means self.now).read) }
        ensures zeros { IfSome result (λ front. (means self.now).read
            ≡ words_of front.now ++ zero_lines (length (means self.now).read - length front.now)) }
    {
        None
    }

    /// Writes a line. No word that isn't zero may change.
    fn write(&mut self, line: u64, value: Line)
        requires within { line < length (means self.old).read }
        requires fills { FillsWords (line_at (means self.old).read line) value.w }
        ensures read { (means self.new).read ≡ slice_set (means self.old).read line value.w }
        ensures fences { (means self.new).fences ≡ (means self.old).fences }
        ensures faults { (means self.new).faults ≡ (means self.old).faults }
        ensures told { (means self.new).told ≡ told_written (means self.old).told line };

    /// Hands a line over to the next fence.
    fn write_back(&mut self, line: u64)
        requires { line < length (means self.old).read }
        ensures read { (means self.new).read ≡ (means self.old).read }
        ensures fences { (means self.new).fences ≡ (means self.old).fences }
        ensures faults { (means self.new).faults ≡ (means self.old).faults }
        ensures told { (means self.new).told ≡ told_backed (means self.old).told line };

    /// Makes every line durable that was written back since it was last written.
    fn fence(&mut self) -> Result<(), FenceFailed>
        requires { (means self.old).fences < 2 ^ 64 - 1 }
        ensures read { (means self.new).read ≡ (means self.old).read }
        ensures fences { (means self.new).fences ≡ (means self.old).fences + 1 }
        ensures ok { OnOk result ((means self.new).faults ≡ (means self.old).faults) }
        ensures durable { OnOk result ((means self.new).told ≡ told_fenced (means self.old).told (means self.old).read) }
        ensures failed { OnErr result ((means self.new).faults ≡ (means self.old).faults + 1) }
        ensures kept { OnErr result ((means self.new).told ≡ (means self.old).told) };

    /// How many fences were called.
    fn fences(&self) -> u64
        ensures { result ≡ (means self.now).fences };

    /// How many fences failed.
    fn faults(&self) -> u64
        ensures { result ≡ (means self.now).faults };

    ghost few_faults: { (device : Self) → (means device).faults ≤ (means device).fences };

    ghost told_by_type: { (device : Self) → is_some (means device).told ≡ tells };
}
