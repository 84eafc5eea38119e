// What a line of a printed key says.
use rules::calls::Kind;

// A fact of the key, by its number, variable and value, and its level at the start, if it has one.
#[derive(Clone, Copy, Debug, PartialEq, Eq)]
pub struct FactLine {
    pub number: u16,
    pub variable: u16,
    pub value: u16,
    pub level: Option<u16>,
}

// Two facts of the key, and the stronger kind in which they are ordered.
#[derive(Clone, Copy, Debug, PartialEq, Eq)]
pub struct OrderLine {
    pub kind: Kind,
    pub earlier: u16,
    pub later: u16,
}

#[derive(Clone, Copy, Debug, PartialEq, Eq)]
pub enum Line {
    Fact(FactLine),
    Order(OrderLine),
}
