// What holds of every form of records.
ghost use Rattle.records.specs.Faults.{OneVerdicts};

// Records are sound or have one first fault.
pub fn verdicts_are_one()
    ensures { OneVerdicts }
{}
