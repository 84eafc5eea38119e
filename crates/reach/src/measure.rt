// What a fact is worth in a layer, and how the worth of an action's conditions makes that of its effects.
ghost use Rattle.reach.specs.Measures.{Laws, Ops, layer_of, level_laws, level_same, levels, reach_laws, reach_same, reaches};
ghost use Rattle.std.specs.Prelude.{◌≡◌, Decides};

pub trait Measure: Copy + PartialEq {
    // What the functions below compute.
    ghost ops: { Ops Self };

    // What each `impl` must prove of them.
    ghost laws: { Laws ops };

    // The value of a start fact.
    fn at_start() -> Self
        ensures { result ≡ ops.first };

    // The value of no conditions.
    fn unconditional() -> Self
        ensures { result ≡ ops.free };

    // The value of a fact out of reach.
    fn unreached() -> Self
        ensures { result ≡ ops.none };

    // The value of two conditions together.
    fn joined(self, other: Self) -> Self
        ensures { result ≡ ops.join self other };

    // The better of two values.
    fn better_of(self, other: Self) -> Self
        ensures { result ≡ ops.better self other };

    // The value that an action makes of that of its conditions.
    fn stepped(self) -> Self
        ensures { result ≡ ops.step self };

    // Two values are equal exactly where they are the same.
    ghost eq_law: { (x y : Self) → Decides (Self.PartialEq.eq x y) (x ≡ y) };
}

// Whether a fact is in reach.
#[derive(Debug, Clone, Copy, PartialEq, Eq)]
pub struct InReach {
    pub yes: bool,
}

// In which layer a fact is first, 65535 for none.
// No `Option`: a step saturates at 65535, where an optional number would need a bound beside it.
#[derive(Debug, Clone, Copy, PartialEq, Eq)]
pub struct AtLevel {
    pub level: u16,
}

impl AtLevel {
    // The layer in which the fact is first, if any.
    pub fn layer(self) -> Option<u16>
        ensures { result ≡ layer_of self }
    {
        if self.level == u16::MAX {
            None
        } else {
            Some(self.level)
        }
    }
}

impl Measure for InReach {
    ghost ops = { reaches };

    ghost laws = { reach_laws };

    ghost eq_law = { reach_same };

    fn at_start() -> InReach {
        InReach { yes: true }
    }

    fn unconditional() -> InReach {
        InReach { yes: true }
    }

    fn unreached() -> InReach {
        InReach { yes: false }
    }

    fn joined(self, other: InReach) -> InReach {
        InReach {
            yes: self.yes & other.yes,
        }
    }

    fn better_of(self, other: InReach) -> InReach {
        InReach {
            yes: self.yes | other.yes,
        }
    }

    fn stepped(self) -> InReach {
        self
    }
}

impl Measure for AtLevel {
    ghost ops = { levels };

    ghost laws = { level_laws };

    ghost eq_law = { level_same };

    fn at_start() -> AtLevel {
        AtLevel { level: 0 }
    }

    fn unconditional() -> AtLevel {
        AtLevel { level: 0 }
    }

    fn unreached() -> AtLevel {
        AtLevel { level: u16::MAX }
    }

    fn joined(self, other: AtLevel) -> AtLevel {
        AtLevel {
            level: self.level.max(other.level),
        }
    }

    fn better_of(self, other: AtLevel) -> AtLevel {
        AtLevel {
            level: self.level.min(other.level),
        }
    }

    fn stepped(self) -> AtLevel {
        AtLevel {
            level: self.level.saturating_add(1),
        }
    }
}
