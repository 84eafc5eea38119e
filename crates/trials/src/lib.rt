// The worked trials of the rules: the contract of each function below is a theorem about the task that a paper's own bytes mean.
#![tactic(auto)]

ghost use Rattle.trials.specs.Papers.{PapersAccepted};
ghost use Rattle.trials.specs.Trials.{Trial1, Trial2, Trial3, PrintedKey, Trial4, Trial5, Trial6, Trial7, Trial8, Trial9, Trial10, Trial11};

// The bytes of the papers A, B, C and D are accepted.
pub fn papers_accepted()
    ensures { PapersAccepted }
{}

// A: the seven facts have the levels 0, 1, 2, 0, 2, 0 and 2, and there are two layers.
pub fn trial_1()
    ensures { Trial1 }
{}

// A: fact 1 is accepted, and proposed again it is known.
pub fn trial_2()
    ensures { Trial2 }
{}

// A: fact 4 is no landmark.
pub fn trial_3()
    ensures { Trial3 }
{}

// A: proposing all facts and ordering all pairs of the key leaves the facts 0, 1, 3, 5 and 6, with 0 before 1 and, necessarily, 1 before 6.
pub fn printed_key()
    ensures { PrintedKey }
{}

// A with the printed key: that 0 comes before 1 is known.
pub fn trial_4()
    ensures { Trial4 }
{}

// A with the printed key: 0 is not necessary before 1, since action 5 lacks it.
pub fn trial_5()
    ensures { Trial5 }
{}

// A with the printed key: 1 does not come before itself, since action 0 lacks it.
pub fn trial_6()
    ensures { Trial6 }
{}

// A with the printed key: nothing comes before 5, which holds at the start.
pub fn trial_7()
    ensures { Trial7 }
{}

// A with the printed key: the remainder is 2, step 3 wants fact 1, and the steps 0, 4, 5 and 3 leave 1, 2, 1 and 0.
pub fn trial_8()
    ensures { Trial8 }
{}

// B: after step 1 there is a dead end.
pub fn trial_9()
    ensures { Trial9 }
{}

// C: the remainder is 4, and the greatest level of a goal fact is 1.
pub fn trial_10()
    ensures { Trial10 }
{}

// D: every call is refused, since goal fact 1 is out of reach.
pub fn trial_11()
    ensures { Trial11 }
{}
