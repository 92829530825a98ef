//! The trait of an object whose calls, replies and states have texts.

ghost use Rattle.std.specs.Prelude.{◌≡◌, true, Ok, OnOk, Some};
ghost use Rattle.std.specs.List.{flat_map};
ghost use Rattle.onll_model.specs.declared.call.Call.TheVariants.{Update, Ask};
ghost use Rattle.onll_words.specs.Texts.{words_of, line_text};
ghost use Rattle.onll_text.specs.Bytes.{begins_line, with_words, with_lines, IsFront};
ghost use Rattle.onll_text.specs.Wording.{Wording};
ghost use Rattle.onll_text.specs.ReadBack.{ReadsBack};
ghost use Rattle.onll_text.specs.declared.any_object.AnyObject.{AnyObject};

use crate::reason::Reason;
use crate::report::Report;
use onll_model::{Call, Object};
use onll_words::NoMemory;

/// An object whose calls, replies and states have texts.
pub trait Texted: Object {
    /// How the object is written.
    ghost wording: { Wording Self Self.Op Self.Query Self.Reply };

    /// It as an object of any kind.
    ghost object: { Self → AnyObject };

    /// The call that a line says.
    fn read_call(line: &[u8]) -> Result<Call<Self>, Reason>
        ensures { result ≡ wording.call_of (words_of line.now) };

    /// Appends the words of an operation.
    fn put_op(op: Self::Op, out: &mut Report) -> Result<(), NoMemory>
        ensures ok { OnOk result (out.new ≡ with_words out.old (wording.op_words op)) }
        ensures keeps { IsFront out.old out.new }
        ensures within { IsFront out.new (with_words out.old (wording.op_words op)) };

    /// Appends the words of a query.
    fn put_query(query: Self::Query, out: &mut Report) -> Result<(), NoMemory>
        ensures ok { OnOk result (out.new ≡ with_words out.old (wording.query_words query)) }
        ensures keeps { IsFront out.old out.new }
        ensures within { IsFront out.new (with_words out.old (wording.query_words query)) };

    /// Appends the words of a reply.
    fn put_reply(reply: Self::Reply, out: &mut Report) -> Result<(), NoMemory>
        ensures ok { OnOk result (out.new ≡ with_words out.old (wording.reply_words reply)) }
        ensures keeps { IsFront out.old out.new }
        ensures within { IsFront out.new (with_words out.old (wording.reply_words reply)) };

    /// Appends the lines of the state, which read as an equal initial state.
    fn put_state(&self, out: &mut Report) -> Result<(), NoMemory>
        requires { begins_line out.old ≡ true }
        ensures ok { OnOk result (out.new ≡ with_lines out.old (wording.state_lines self.now)) }
        ensures keeps { IsFront out.old out.new }
        ensures within { IsFront out.new (with_lines out.old (wording.state_lines self.now)) };

    /// A law: what is printed of an operation reads as that update. It does nothing when called.
    fn op_reads_back(op: Self::Op)
        ensures { wording.call_of (wording.op_words op) ≡ Ok (Update op) };

    /// A law: what is printed of a query reads as that read. It does nothing when called.
    fn query_reads_back(query: Self::Query)
        ensures { wording.call_of (wording.query_words query) ≡ Ok (Ask query) };

    /// A law: what is printed of a reply reads as that reply. It does nothing when called.
    fn reply_reads_back(reply: Self::Reply)
        ensures { wording.reply_of (wording.reply_words reply) ≡ Ok reply };

    /// A law: what is printed of a state reads as that state, and as the object that it is. It does nothing when called.
    fn state_reads_back(&self)
        ensures state { wording.state_of (flat_map line_text (wording.state_lines self.now)) ≡ Some self.now }
        ensures object { ReadsBack wording object self.now };
}
