// The form of sheets.
ghost use Rattle.sheet.specs.Sheet.{sheet_rules};
ghost use Rattle.sheet.specs.Sheets.{sheet_grows};
ghost use Rattle.sheet.specs.Meaning.{SheetSays};
ghost use Rattle.sheet.specs.Sayings.{sheet_says};
ghost use Rattle.std.specs.Prelude.{refl};

use forms::form::{Entry, RecordForm, SayingForm};
use records::record::{Kind, Record};

pub struct SheetForm;

impl RecordForm for SheetForm {
    ghost rules = { sheet_rules };

    ghost begins = { refl };

    ghost grows = { sheet_grows };

    fn kind_of(number: u8) -> Option<Kind> {
        match number {
            6 => Some(Kind::Variable),
            7 => Some(Kind::Goal),
            8 => Some(Kind::Action),
            9 => Some(Kind::Condition),
            10 => Some(Kind::Effect),
            11 => Some(Kind::Delete),
            _ => None,
        }
    }

    fn uses(kind: Kind) -> u8 {
        match kind {
            Kind::Action => 0,
            Kind::Variable | Kind::Goal | Kind::Condition | Kind::Effect | Kind::Delete => 1,
        }
    }

    fn entry(kind: Kind, r: Record) -> Entry {
        match kind {
            Kind::Variable => Entry {
                first: 2,
                second: r.one,
            },
            Kind::Goal | Kind::Condition | Kind::Effect => Entry {
                first: r.one,
                second: 1,
            },
            Kind::Action | Kind::Delete => Entry {
                first: r.one,
                second: 0,
            },
        }
    }
}

impl SayingForm for SheetForm {
    ghost says = { SheetSays };

    ghost told = { sheet_says };
}
