//! What flows carry from call to call, and entries keep: values and answers that are shared.

ghost use Rattle.std.specs.Prelude.{◌≡◌, IfOk};
ghost use Rattle.flow_model.specs.Carried.{good_values};

use flux_values::{Answer, Bytes, CallResult, List, Memory, Value};
use std::alloc::Global;
use std::marker::Model;
use std::sync::Arc;

/// What a call answered, seen as the answer.
pub struct SharedAnswer {
    shared: Arc<Answer>,
}

impl Drop for SharedAnswer {
    fn drop(self) {
        let SharedAnswer { shared } = self;
    }
}

impl Model for SharedAnswer {
    ghost use Rattle.std.specs.Arc.{arc_value};
    ghost use Rattle.flux_values.specs.declared.answers.Answer.{Answer};
    ghost use Rattle.flux_values.specs.contracts.answers.Answer as answer;

    ghost Value = { Answer };

    ghost coded = { answer.the_row.coded };

    ghost view = { λ a. arc_value a.shared };
}

impl SharedAnswer {
    pub fn new(alloc: Global, answer: Answer) -> Result<SharedAnswer, Memory>
        ensures { IfOk result (λ shared. shared ≡ answer) }
    {
        Ok(SharedAnswer {
            shared: Arc::new(alloc, answer)?,
        })
    }

    /// The same answer once more.
    pub fn share(&self) -> Result<SharedAnswer, Memory>
        ensures { IfOk result (λ shared. shared ≡ self.now) }
    {
        Ok(SharedAnswer {
            shared: Arc::try_clone(&self.shared)?,
        })
    }

    pub fn as_answer(&self) -> &Answer
        ensures { result.now ≡ self.now }
    {
        &self.shared
    }
}

/// Values that a flow carries, seen as their list.
pub struct Carried {
    answer: SharedAnswer,
}

impl Drop for Carried {
    fn drop(self) {
        let Carried { answer } = self;
    }
}

impl Model for Carried {
    ghost use Rattle.std.specs.Prelude.{List};
    ghost use Rattle.flux_values.specs.declared.values.Value.{Value as value};
    ghost use Rattle.flow_model.specs.Carried.{good_values};

    ghost Value = { List value };

    ghost view = { λ c. good_values c.answer.result };
}

impl Carried {
    /// Values by themselves, as those of an answer that does nothing else.
    pub fn new(alloc: Global, values: List<Value>) -> Result<Carried, Memory>
        ensures { IfOk result (λ carried. carried ≡ values) }
    {
        let answer = Answer {
            result: CallResult::Good(values),
            puts: List::new(alloc),
            emits: Bytes::new(alloc),
        };
        Ok(Carried {
            answer: SharedAnswer::new(alloc, answer)?,
        })
    }

    /// The values of an answer, kept where they are; none of a failed one. Where there are none the answer isn't held.
    pub fn from_answer(alloc: Global, answer: &SharedAnswer) -> Result<Carried, Memory>
        ensures { IfOk result (λ carried. carried ≡ good_values answer.now.result) }
    {
        match good_values(&answer.as_answer().result) {
            [] => Carried::new(alloc, List::new(alloc)),
            _ => Ok(Carried {
                answer: answer.share()?,
            }),
        }
    }

    /// The same values once more.
    pub fn share(&self) -> Result<Carried, Memory>
        ensures { IfOk result (λ carried. carried ≡ self.now) }
    {
        Ok(Carried {
            answer: self.answer.share()?,
        })
    }

    pub fn as_slice(&self) -> &[Value]
        ensures { result.now ≡ self.now }
    {
        good_values(&self.answer.as_answer().result)
    }
}

/// The values of a call that ended well; a failure has none.
fn good_values(ending: &CallResult) -> &[Value]
    ensures { result.now ≡ good_values ending.now }
{
    match ending {
        CallResult::Good(values) => values.as_slice(),
        CallResult::Bad(_) => &[],
    }
}
