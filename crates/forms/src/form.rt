// What a form of records has of its own.
ghost use Rattle.std.specs.Prelude.{◌≡◌, List};
ghost use Rattle.task.specs.Task.{Task};
ghost use Rattle.records.specs.declared.record.Record.{Record as FormRecord};
ghost use Rattle.forms.specs.Forms.{FormRules, Begins, Grows};
ghost use Rattle.forms.specs.Laws.{SoundSay};

use records::record::{Kind, Record};

// What a record enters: a size and a start value, or a variable and a value.
#[derive(Clone, Copy)]
pub struct Entry {
    pub first: u8,
    pub second: u8,
}

pub trait RecordForm {
    // The page of the form.
    ghost rules: { FormRules };

    // The kind that byte 0 tells, if it is one of this form.
    fn kind_of(number: u8) -> Option<Kind>
        ensures { result ≡ rules.kind number };

    // How many of the bytes 1 and 2 a record of the kind uses.
    fn uses(kind: Kind) -> u8
        ensures { result ≡ rules.uses kind };

    // What a record of the kind enters.
    fn entry(kind: Kind, r: Record) -> Entry
        ensures { result ≡ rules.enters kind r };

    // No records mean the lists of nothing.
    ghost begins: { Begins rules };

    // One more record adds its entry to the lists.
    ghost grows: { Grows rules };
}

// A form that says in words of its own what its records mean.
pub trait SayingForm: RecordForm {
    // What records say of their task.
    ghost says: { List FormRecord → Task → Type 0 };

    // The task of sound records is what they say.
    ghost told: { SoundSay Self.RecordForm.rules says };
}
