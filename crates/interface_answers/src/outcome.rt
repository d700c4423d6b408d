// The answers of the recorder's calls, as numbers.
ghost use Rattle.std.specs.Prelude.{◌≡◌};
ghost use Rattle.recording.specs.Calls.{reply_of};
ghost use Rattle.interface_answers.specs.Recorded.{answer_number, value_number, outcome_of};

use interface_state::{StateNumbers, state_after};
use recording::{Answer, Outcome};
use refusal::Refusal;

// What a call answers, the refusal's number or the total bytes, and the state after it.
#[repr(C)]
#[derive(Clone, Copy)]
pub struct OutcomeNumbers {
    pub answer: u32,
    pub value: u32,
    pub state: StateNumbers,
}

fn answer_number(answer: Result<Answer, Refusal>) -> u32
    ensures { result ≡ answer_number (reply_of answer) }
{
    match answer {
        Ok(Answer::Started) => 1,
        Ok(Answer::Taken) => 2,
        Ok(Answer::Same) => 3,
        Ok(Answer::Back) => 4,
        Ok(Answer::Recorded) => 5,
        Ok(Answer::Skipped) => 6,
        Ok(Answer::Finished(_)) => 7,
        Err(_) => 0,
    }
}

fn value_number(answer: Result<Answer, Refusal>) -> u32
    ensures { result ≡ value_number (reply_of answer) }
{
    match answer {
        Ok(Answer::Finished(total)) => total,
        Ok(Answer::Started | Answer::Taken | Answer::Same | Answer::Back) => 0,
        Ok(Answer::Recorded | Answer::Skipped) => 0,
        Err(refusal) => refusal.number(),
    }
}

// A call's answer and the state after it; `before` are the state's numbers as the call got them.
pub fn outcome_numbers(before: StateNumbers, done: Outcome) -> OutcomeNumbers
    ensures { result ≡ outcome_of before (reply_of done.answer) done.state }
{
    let answer = done.answer;
    let after = done.state;
    let state = state_after(before, after);
    OutcomeNumbers {
        answer: answer_number(answer),
        value: value_number(answer),
        state,
    }
}
