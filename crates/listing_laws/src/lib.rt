// What is true of the lines of a key: the contract of each function below is a theorem.
#![tactic(auto)]

ghost use Rattle.listing_laws.specs.Laws.{AllListed, OneLine};

// No number has two lines.
pub fn one_line()
    ensures { OneLine }
{}

// Each fact of the key and each ordered pair has a line.
pub fn all_listed()
    ensures { AllListed }
{}
