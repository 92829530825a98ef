//! A counter: the example of an object of one's own.
#![tactic(auto)]

ghost use Rattle.onll_counter.specs.Counter.{counter};

#[derive(Clone, Copy, Debug, PartialEq, Eq)]
pub enum CounterOp {
    Add { more: u64 },
}

#[derive(Clone, Copy, Debug, PartialEq, Eq)]
pub struct CounterQuery;

#[derive(Clone, Copy, Debug, PartialEq, Eq)]
pub enum CounterReply {
    Added,
    TooMany,
    Count(u64),
}

#[derive(Clone, Copy)]
pub struct Count {
    pub count: u64,
}

impl onll_rows::PlainState for Count {
    type Op = CounterOp;

    type Query = CounterQuery;

    type Reply = CounterReply;

    ghost sketch = { counter };

    fn apply(&mut self, CounterOp::Add { more }: CounterOp) -> CounterReply {
        if more > u64::MAX - self.count {
            return CounterReply::TooMany;
        }
        self.count += more;
        CounterReply::Added
    }

    fn ask(&self, _query: CounterQuery) -> CounterReply {
        CounterReply::Count(self.count)
    }

    fn op_words(CounterOp::Add { more }: CounterOp) -> [u64; 7] {
        [1, more, 0, 0, 0, 0, 0]
    }

    fn op_of(words: [u64; 7]) -> Option<CounterOp> {
        Some(CounterOp::Add { more: words[1] })
    }

    fn describe(&self, alloc: std::alloc::Global) -> Result<String, std::alloc::AllocError> {
        format!(in alloc; "counter {}", self.count)
    }
}
