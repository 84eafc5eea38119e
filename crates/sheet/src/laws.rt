// What is proved of every sheet.
ghost use Rattle.sheet.specs.Meaning.{SheetsSay, SheetsLawful};

// A sound sheet means a task that says what its records say.
pub fn sheets_say()
    ensures { SheetsSay }
{}

// A sound sheet means a lawful task.
pub fn sheets_are_lawful()
    ensures { SheetsLawful }
{}
