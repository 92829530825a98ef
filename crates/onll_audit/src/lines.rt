//! The lines of a report that are left.

ghost use Rattle.std.specs.Prelude.{◌≡◌, ◌<◌, ◌≤◌, ◌+◌, ◌^◌, Some, None, length, position, IfSome, MatchOption};
ghost use Rattle.onll_words.specs.Texts.{is_line_end};
ghost use Rattle.onll_audit.specs.Form.{next_line, all_lines};
ghost use Rattle.onll_audit.specs.Values.{as_left};

use crate::fields::tail;

/// The text of a report from some line on, and that line's number.
#[derive(Clone, Copy, Debug)]
pub(crate) struct LinesLeft<'a> {
    pub number: u64,
    pub rest: &'a [u8],
}

/// A whole line, without its end, and the lines after it.
#[derive(Clone, Copy, Debug)]
pub(crate) struct NextLine<'a> {
    pub line: &'a [u8],
    pub after: LinesLeft<'a>,
}

fn line_end(text: &[u8]) -> Option<usize>
    ensures place { result ≡ position is_line_end text.now }
    ensures within { IfSome result (λ i. i < length text.now) }
{
    text.iter().position(|byte| *byte == b'\n')
}

impl<'a> LinesLeft<'a> {
    /// All lines of a text.
    pub fn of(text: &'a [u8]) -> LinesLeft<'a>
        ensures lines { as_left result ≡ all_lines text.now }
        ensures within { result.number + length result.rest.now < 2 ^ 64 }
    {
        let _ = text.len();
        LinesLeft {
            number: 1,
            rest: text,
        }
    }

    /// The next whole line.
    #[tactic(auto, using(crate::proofs::Splitting::splitting))]
    pub fn next(&self) -> Option<NextLine<'a>>
        requires { self.now.number + length self.now.rest.now < 2 ^ 64 }
        ensures line { MatchOption result (next_line (as_left self.now) ≡ None)
            (λ n. next_line (as_left self.now) ≡ Some (n.line.now, as_left n.after)) }
        ensures shorter { IfSome result (λ n. n.after.number + length n.after.rest.now ≤ self.now.number + length self.now.rest.now) }
        ensures ends { IfSome result (λ n. length n.after.rest.now < length self.now.rest.now) }
    {
        match line_end(self.rest) {
            Some(end) => Some(NextLine {
                line: &self.rest[..end],
                after: LinesLeft {
                    number: self.number + 1,
                    rest: tail(self.rest, end + 1),
                },
            }),
            None => None,
        }
    }
}
