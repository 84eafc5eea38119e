// The answers to calls on the fork.
use crate::fork::Fork;
use key::keys::Key;
use key::replay::replay;
use rules::calls::{Answer, Call, Kind, Mark, Refusal, Remainder, Standing};
use std::process::Abort;
use std::test::Fail;
use task::barred::Barred;

// Replays calls on the fork and compares the answers.
fn check_answers(
    rt: &(impl Abort + AllocGlobal),
    calls: &[Call],
    expected: &[Answer],
) -> Result<(), Fail> {
    let transcript = replay(rt.alloc(), &Fork {}, calls)?;
    assert_eq!(rt; transcript.answers.as_slice(), expected);
    Ok(())
}

// A report.
fn stands(steps: u16, visited: u16, remainder: Remainder) -> Answer {
    Answer::Reported(Standing {
        steps,
        visited,
        remainder,
    })
}

#[test]
fn proposals(rt: HostRuntime) -> Result<(), Fail> {
    let calls = [
        Call::Propose(0),
        Call::Propose(1),
        Call::Propose(3),
        Call::Propose(3),
        Call::Propose(4),
        Call::Propose(5),
        Call::Propose(6),
    ];
    let expected = [
        Answer::Marked(Mark::Accepted),
        Answer::Refused(Refusal::NoLandmark(1)),
        Answer::Marked(Mark::Accepted),
        Answer::Marked(Mark::Known),
        Answer::Marked(Mark::Accepted),
        Answer::Refused(Refusal::NoLandmark(5)),
        Answer::Refused(Refusal::NoSuch(6)),
    ];
    check_answers(&rt, &calls, &expected)
}

#[test]
fn orderings(rt: HostRuntime) -> Result<(), Fail> {
    let calls = [
        Call::Propose(0),
        Call::Propose(3),
        Call::Order(1, 3, 4),
        Call::Order(1, 1, 4),
        Call::Propose(4),
        Call::Order(1, 3, 4),
        Call::Order(1, 3, 4),
        Call::Order(2, 3, 4),
        Call::Order(2, 0, 3),
        Call::Order(1, 4, 0),
        Call::Order(3, 9, 9),
        Call::Order(2, 9, 8),
        Call::Order(2, 0, 8),
    ];
    let expected = [
        Answer::Marked(Mark::Accepted),
        Answer::Marked(Mark::Accepted),
        Answer::Refused(Refusal::OutsideKey(4)),
        Answer::Refused(Refusal::OutsideKey(1)),
        Answer::Marked(Mark::Accepted),
        Answer::Marked(Mark::Accepted),
        Answer::Marked(Mark::Known),
        Answer::Marked(Mark::Accepted),
        Answer::Refused(Refusal::Unordered(2)),
        Answer::Refused(Refusal::LaterAtStart(0)),
        Answer::Refused(Refusal::NoSuch(3)),
        Answer::Refused(Refusal::NoSuch(9)),
        Answer::Refused(Refusal::NoSuch(8)),
    ];
    check_answers(&rt, &calls, &expected)
}

#[test]
fn a_sitting(rt: HostRuntime) -> Result<(), Fail> {
    let calls = [
        Call::Report,
        Call::Step(4),
        Call::Step(6),
        Call::Step(0),
        Call::Step(2),
        Call::Propose(3),
        Call::Report,
        Call::Step(4),
        Call::Report,
        Call::Begin,
        Call::Report,
        Call::Step(5),
        Call::Report,
    ];
    let expected = [
        stands(0, 0, Remainder::AtLeast(3)),
        Answer::Refused(Refusal::UnmetCondition(3)),
        Answer::Refused(Refusal::NoAction(6)),
        Answer::Done,
        Answer::Done,
        Answer::Marked(Mark::Accepted),
        stands(2, 1, Remainder::AtLeast(1)),
        Answer::Done,
        stands(3, 1, Remainder::AtLeast(0)),
        Answer::Done,
        stands(0, 0, Remainder::AtLeast(3)),
        Answer::Done,
        stands(1, 0, Remainder::DeadEnd),
    ];
    check_answers(&rt, &calls, &expected)
}

#[test]
fn a_tally(rt: HostRuntime) -> Result<(), Fail> {
    let mut key = Key::open(rt.alloc(), &Fork {})?;
    assert_eq!(rt; key.tally(), 0);
    let _ = key.propose(1);
    let _ = key.propose(0);
    let _ = key.propose(3);
    let _ = key.order(2, 0, 3);
    let _ = key.order(2, 0, 4);
    assert_eq!(rt; key.tally(), 2);
    assert!(rt; key.holds(3));
    assert!(rt; !key.holds(1));
    assert!(rt; !key.is_ordered(Kind::Necessary, 0, 3));
    let _ = key.step(1);
    assert_eq!(rt; key.value(0), 2);
    let _ = key.begin();
    assert_eq!(rt; key.value(0), 0);
    assert_eq!(rt; key.tally(), 2);
    Ok(())
}

#[test]
fn a_goal_out_of_reach(rt: HostRuntime) -> Result<(), Fail> {
    let barred = Barred::by_number(Fork {}, 3);
    let mut key = Key::open(rt.alloc(), &barred)?;
    let refused = Answer::Refused(Refusal::GoalOutOfReach(4));
    assert_eq!(rt; key.answer(Call::Propose(0)), refused);
    assert_eq!(rt; key.answer(Call::Order(9, 9, 9)), refused);
    assert_eq!(rt; key.answer(Call::Begin), refused);
    assert_eq!(rt; key.answer(Call::Step(0)), refused);
    assert_eq!(rt; key.answer(Call::Report), refused);
    assert!(rt; !key.holds(0));
    assert_eq!(rt; key.value(0), 0);
    assert_eq!(rt; key.tally(), 0);
    Ok(())
}
