// The command `count`.
ghost use Rattle.std.specs.Prelude.{Some};
ghost use Rattle.pg_model.specs.Actions.{Count};
ghost use Rattle.pg_engine.specs.Outcomes.{IsOutcome};

use crate::state::{Outcome, State};
use pg_bytes::Text;
use pg_msg::{Refusal, Reply};

impl State {
    // The command `count`.
    pub(crate) fn count(self, queue: Text) -> Outcome
        ensures { IsOutcome self (Some (Count queue)) result }
    {
        match self.count_of(&queue) {
            Some(count) => self.unchanged(Reply::Count(count)),
            None => self.refused(Refusal::Queue),
        }
    }
}
