// The form of papers.
ghost use Rattle.paper.specs.Paper.{paper_rules};
ghost use Rattle.paper.specs.Papers.{paper_grows};
ghost use Rattle.paper.specs.Meaning.{PaperSays};
ghost use Rattle.paper.specs.Sayings.{paper_says};
ghost use Rattle.std.specs.Prelude.{refl};

use forms::form::{Entry, RecordForm, SayingForm};
use records::record::{Kind, Record};

pub struct PaperForm;

impl RecordForm for PaperForm {
    ghost rules = { paper_rules };

    ghost begins = { refl };

    ghost grows = { paper_grows };

    fn kind_of(number: u8) -> Option<Kind> {
        match number {
            1 => Some(Kind::Variable),
            2 => Some(Kind::Goal),
            3 => Some(Kind::Action),
            4 => Some(Kind::Condition),
            5 => Some(Kind::Effect),
            _ => None,
        }
    }

    fn uses(kind: Kind) -> u8 {
        match kind {
            Kind::Action => 0,
            Kind::Variable | Kind::Goal | Kind::Condition | Kind::Effect | Kind::Delete => 2,
        }
    }

    fn entry(_kind: Kind, r: Record) -> Entry {
        Entry {
            first: r.one,
            second: r.two,
        }
    }
}

impl SayingForm for PaperForm {
    ghost says = { PaperSays };

    ghost told = { paper_says };
}
