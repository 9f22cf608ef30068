// Calls by their values: one, or a list of them given one after another.
ghost use Rattle.std.specs.Prelude.{◌≡◌, ◌+◌, ◌≤◌, length};
ghost use Rattle.refusals.specs.Told.{told};
ghost use Rattle.rows.specs.Rows.{items_of};
ghost use Rattle.board.specs.Runs.{step};
ghost use Rattle.board.specs.Answers.{shown, has_room, call_told, after_all, Appended, Ran};

use super::answer::Answer;
use super::board::Board;
use super::call::Call;
use part::Part;
use refusals::Refusal;
use rows::row::Row;

impl<P: Part> Board<P> {
    // Gives the board one call.
    pub fn call(&mut self, call: Call) -> Answer
        ensures after { self.new ≡ step P.Part.ops self.old call }
        ensures answer { shown result ≡ call_told P.Part.ops self.old call }
    {
        let answer = match call {
            Call::Sample { byte } => self.sample(byte).map(|high| Answer::Level { high }),
            Call::Finish { part } => self.finish(part).map(|()| Answer::Done),
            Call::Cut { power } => {
                self.cut(power);
                Ok(Answer::Done)
            }
        };
        answer.unwrap_or_else(|refusal| Answer::Refused { refusal })
    }

    // Gives the board the calls and appends what each answers, a refusal too. A row without room for all answers is
    // refused before the first call: board and row stay as they were.
    #[tactic(auto, using(crate::proofs::Splices::after_leads))]
    pub fn run(&mut self, calls: &[Call], answers: &mut Row<'_, Answer>) -> Result<(), Refusal>
        ensures run { Ran P.Part.ops (has_room answers.old (length calls.now)) calls.now self.old self.new answers.old answers.new (told (λ x. x) result) }
        ensures lender { answers.new.items.ghost_name ≡ answers.old.items.ghost_name }
    {
        if answers.room() < calls.len() {
            return Err(Refusal::NoRoom);
        }
        self.give_all(calls, answers);
        Ok(())
    }

    fn give_all(&mut self, calls: &[Call], answers: &mut Row<'_, Answer>)
        requires { answers.old.count + length calls.now ≤ length (items_of answers.old) }
        ensures after { self.new ≡ after_all P.Part.ops self.old calls.now }
        ensures answers { Appended P.Part.ops self.old calls.now answers.old answers.new }
        ensures lender { answers.new.items.ghost_name ≡ answers.old.items.ghost_name }
    {
        for call in calls {
            let answer = self.call(*call);
            let _ = answers.append(answer);
        }
    }
}
