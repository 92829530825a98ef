//! An object that is described, and saved, by its printed text.

ghost use Rattle.std.specs.Prelude.{◌≡◌};

use crate::readable::Readable;
use onll_live::Saved;
use onll_model::Object;
use onll_rows::Described;
use onll_text::{Report, Texted};
use onll_words::{NoMemory, OpRow};
use std::alloc::Global;
use std::marker::Model;

/// An object that is described, and saved, by its printed text. It is seen as the object.
#[derive(Drop)]
pub struct Printed<O: Texted> {
    object: O,
}

impl<O: Texted> Model for Printed<O> {
    ghost Value = { O };

    ghost view = { λ p. p.object };
}

impl<O: Texted> Printed<O> {
    /// The object, which begins in this state.
    pub fn of(object: O) -> Printed<O>
        ensures { result ≡ object }
    {
        Printed { object }
    }

    /// The object.
    pub fn object(&self) -> &O
        ensures { result.now ≡ self.now }
    {
        &self.object
    }
}

impl<O: Texted> Object for Printed<O> {
    type Op = O::Op;

    type Query = O::Query;

    type Reply = O::Reply;

    const CODE: u64 = O::CODE;

    ghost CODE = { O.CODE };

    ghost means = { O.means };

    fn apply(&mut self, op: O::Op) -> O::Reply {
        self.object.apply(op)
    }

    fn ask(&self, query: O::Query) -> O::Reply {
        self.object.ask(query)
    }

    fn op_row(op: O::Op) -> OpRow {
        O::op_row(op)
    }

    fn op_of_row(row: OpRow) -> Option<O::Op> {
        O::op_of_row(row)
    }

    fn copy(&self, alloc: Global) -> Result<Self, NoMemory> {
        let object = self.object.copy(alloc)?;
        Ok(Printed { object })
    }

    fn restore(&mut self, from: &Self) {
        self.object.restore(&from.object);
    }

    fn capacity(&self) -> u64 {
        self.object.capacity()
    }

    ghost code_in_range = { O.code_in_range };
}

impl<O: Texted> Described for Printed<O> {
    ghost use Rattle.onll_text.specs.PrintsBack.{state_text};

    ghost description = { state_text O.wording };

    fn describe(&self, alloc: Global) -> Result<Vec<u8>, NoMemory> {
        let mut report = Report::new(alloc);
        self.object.put_state(&mut report)?;
        Ok(report.into_bytes())
    }
}

impl<O: Readable> Saved for Printed<O> {
    ghost read_of = { O.wording.state_of };

    fn save(&self, alloc: Global) -> Result<Vec<u8>, NoMemory> {
        self.object.state_reads_back();
        self.describe(alloc)
    }

    fn load(alloc: Global, bytes: &[u8]) -> Result<Option<Self>, NoMemory> {
        match O::read_state(alloc, bytes)? {
            Some(object) => Ok(Some(Printed { object })),
            None => Ok(None),
        }
    }
}
