// The worked trials, run: each function reads a paper, makes the calls of a trial, and ensures the answers that the rules give.
#![tactic(auto)]

ghost use Rattle.account.specs.Accounts.{AccountOf};
ghost use Rattle.paper.specs.Paper.{paper_task};
ghost use Rattle.records.specs.Records.{records};
ghost use Rattle.rules.specs.Machine.{Machine, Session};
ghost use Rattle.std.specs.Prelude.{◌≡◌, [], ◌∷◌, ◌++◌, IfOk};
ghost use Rattle.trials.specs.Key.{key_answers, key_calls};
ghost use Rattle.trials.specs.Papers.{task_a};
ghost use Rattle.trials.specs.Trials.{answers_2, answers_3, answers_4, answers_5, answers_6, answers_7, answers_8, answers_9, answers_10};
ghost use Rattle.rules.specs.declared.calls.Answer.TheVariants.{Refused};
ghost use Rattle.rules.specs.declared.calls.Refusal.TheVariants.{GoalOutOfReach};

use account::account::Account;
use account::building::account_of;
use key::replay::replay;
use paper::paper::Paper;
use records::fault::ReadFault;
use rules::calls::{Answer, Call};
use std::alloc::Global;

// The bytes of paper A.
const PAPER_A: [u8; 92] = [
    1, 3, 0, 0, 1, 2, 0, 0, 1, 2, 0, 0, 2, 2, 1, 0, 3, 0, 0, 0, 4, 0, 0, 0, 5, 0, 1, 0, 3, 0, 0, 0,
    4, 0, 1, 0, 5, 1, 1, 0, 3, 0, 0, 0, 4, 0, 1, 0, 4, 1, 1, 0, 5, 2, 1, 0, 3, 0, 0, 0, 4, 0, 1, 0,
    5, 2, 1, 0, 3, 0, 0, 0, 4, 0, 1, 0, 5, 0, 2, 0, 3, 0, 0, 0, 4, 0, 2, 0, 5, 0, 1, 0,
];

// The bytes of paper B.
const PAPER_B: [u8; 32] = [
    1, 3, 0, 0, 2, 0, 1, 0, 3, 0, 0, 0, 4, 0, 0, 0, 5, 0, 1, 0, 3, 0, 0, 0, 4, 0, 0, 0, 5, 0, 2, 0,
];

// The bytes of paper C.
const PAPER_C: [u8; 64] = [
    1, 2, 0, 0, 1, 2, 0, 0, 1, 2, 0, 0, 1, 2, 0, 0, 2, 0, 1, 0, 2, 1, 1, 0, 2, 2, 1, 0, 2, 3, 1, 0,
    3, 0, 0, 0, 5, 0, 1, 0, 3, 0, 0, 0, 5, 1, 1, 0, 3, 0, 0, 0, 5, 2, 1, 0, 3, 0, 0, 0, 5, 3, 1, 0,
];

// The bytes of paper D.
const PAPER_D: [u8; 20] = [1, 3, 0, 0, 2, 0, 1, 0, 3, 0, 0, 0, 4, 0, 0, 0, 5, 0, 2, 0];

// All facts proposed, then all pairs of the key ordered, greedy-necessary and necessary.
const KEY_CALLS: [Call; 57] = [
    Call::Propose(0),
    Call::Propose(1),
    Call::Propose(2),
    Call::Propose(3),
    Call::Propose(4),
    Call::Propose(5),
    Call::Propose(6),
    Call::Order(1, 0, 0),
    Call::Order(2, 0, 0),
    Call::Order(1, 0, 1),
    Call::Order(2, 0, 1),
    Call::Order(1, 0, 3),
    Call::Order(2, 0, 3),
    Call::Order(1, 0, 5),
    Call::Order(2, 0, 5),
    Call::Order(1, 0, 6),
    Call::Order(2, 0, 6),
    Call::Order(1, 1, 0),
    Call::Order(2, 1, 0),
    Call::Order(1, 1, 1),
    Call::Order(2, 1, 1),
    Call::Order(1, 1, 3),
    Call::Order(2, 1, 3),
    Call::Order(1, 1, 5),
    Call::Order(2, 1, 5),
    Call::Order(1, 1, 6),
    Call::Order(2, 1, 6),
    Call::Order(1, 3, 0),
    Call::Order(2, 3, 0),
    Call::Order(1, 3, 1),
    Call::Order(2, 3, 1),
    Call::Order(1, 3, 3),
    Call::Order(2, 3, 3),
    Call::Order(1, 3, 5),
    Call::Order(2, 3, 5),
    Call::Order(1, 3, 6),
    Call::Order(2, 3, 6),
    Call::Order(1, 5, 0),
    Call::Order(2, 5, 0),
    Call::Order(1, 5, 1),
    Call::Order(2, 5, 1),
    Call::Order(1, 5, 3),
    Call::Order(2, 5, 3),
    Call::Order(1, 5, 5),
    Call::Order(2, 5, 5),
    Call::Order(1, 5, 6),
    Call::Order(2, 5, 6),
    Call::Order(1, 6, 0),
    Call::Order(2, 6, 0),
    Call::Order(1, 6, 1),
    Call::Order(2, 6, 1),
    Call::Order(1, 6, 3),
    Call::Order(2, 6, 3),
    Call::Order(1, 6, 5),
    Call::Order(2, 6, 5),
    Call::Order(1, 6, 6),
    Call::Order(2, 6, 6),
];

// The answers to calls on a new key over a paper.
fn run_calls(heap: Global, bytes: &[u8], calls: &[Call]) -> Result<Vec<Answer>, ReadFault>
    ensures { IfOk result (λ v. (m : Machine) × Session (paper_task (records bytes.now)) calls.now v.items m) }
{
    let paper = Paper::read(heap, bytes)?;
    let transcript = replay(heap, &paper, calls)?;
    Ok(transcript.answers)
}

// The answers to the calls that make the printed key of paper A, and then to more.
fn run_with_key(heap: Global, more: &[Call]) -> Result<Vec<Answer>, ReadFault>
    ensures { IfOk result (λ v. (m : Machine) × Session task_a (key_calls ++ more.now) v.items m) }
{
    let mut calls = Vec::from_slice(heap, &KEY_CALLS)?;
    calls.extend_from_slice(more)?;
    run_calls(heap, &PAPER_A, calls.as_slice())
}

// Paper A: its account has the levels that the rules give.
pub fn run_trial_1(heap: Global) -> Result<Account, ReadFault>
    ensures { IfOk result (AccountOf task_a) }
{
    let paper = Paper::read(heap, &PAPER_A)?;
    Ok(account_of(heap, &paper)?)
}

// Paper A: fact 1 is accepted, and proposed again it is known.
pub fn run_trial_2(heap: Global) -> Result<Vec<Answer>, ReadFault>
    ensures { IfOk result (λ v. v.items ≡ answers_2) }
{
    run_calls(heap, &PAPER_A, &[Call::Propose(1), Call::Propose(1)])
}

// Paper A: fact 4 is no landmark.
pub fn run_trial_3(heap: Global) -> Result<Vec<Answer>, ReadFault>
    ensures { IfOk result (λ v. v.items ≡ answers_3) }
{
    run_calls(heap, &PAPER_A, &[Call::Propose(4)])
}

// The printed key knows that 0 comes before 1.
pub fn run_trial_4(heap: Global) -> Result<Vec<Answer>, ReadFault>
    ensures { IfOk result (λ v. v.items ≡ key_answers ++ answers_4) }
{
    run_with_key(heap, &[Call::Order(1, 0, 1)])
}

// 0 is not necessary before 1: action 5 does without.
pub fn run_trial_5(heap: Global) -> Result<Vec<Answer>, ReadFault>
    ensures { IfOk result (λ v. v.items ≡ key_answers ++ answers_5) }
{
    run_with_key(heap, &[Call::Order(2, 0, 1)])
}

// 1 does not come before itself: action 0 does without.
pub fn run_trial_6(heap: Global) -> Result<Vec<Answer>, ReadFault>
    ensures { IfOk result (λ v. v.items ≡ key_answers ++ answers_6) }
{
    run_with_key(heap, &[Call::Order(1, 1, 1)])
}

// Nothing comes before 5, which holds at the start.
pub fn run_trial_7(heap: Global) -> Result<Vec<Answer>, ReadFault>
    ensures { IfOk result (λ v. v.items ≡ key_answers ++ answers_7) }
{
    run_with_key(heap, &[Call::Order(1, 1, 5)])
}

// A sitting: the remainders are 2, 1, 2, 1 and 0, and step 3 is refused at first.
pub fn run_trial_8(heap: Global) -> Result<Vec<Answer>, ReadFault>
    ensures { IfOk result (λ v. v.items ≡ key_answers ++ answers_8) }
{
    run_with_key(
        heap,
        &[
            Call::Report,
            Call::Step(3),
            Call::Step(0),
            Call::Report,
            Call::Step(4),
            Call::Report,
            Call::Step(5),
            Call::Report,
            Call::Step(3),
            Call::Report,
        ],
    )
}

// Paper B: after step 1 there is a dead end.
pub fn run_trial_9(heap: Global) -> Result<Vec<Answer>, ReadFault>
    ensures { IfOk result (λ v. v.items ≡ answers_9) }
{
    run_calls(heap, &PAPER_B, &[Call::Step(1), Call::Report])
}

// Paper C: four steps are left at least.
pub fn run_trial_10(heap: Global) -> Result<Vec<Answer>, ReadFault>
    ensures { IfOk result (λ v. v.items ≡ answers_10) }
{
    run_calls(heap, &PAPER_C, &[Call::Report])
}

// Paper D: the goal is out of reach.
pub fn run_trial_11(heap: Global) -> Result<Vec<Answer>, ReadFault>
    ensures { IfOk result (λ v. v.items ≡ Refused (GoalOutOfReach 1) ∷ Refused (GoalOutOfReach 1) ∷ []) }
{
    run_calls(heap, &PAPER_D, &[Call::Propose(0), Call::Report])
}
