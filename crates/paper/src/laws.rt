// What is proved of every paper.
ghost use Rattle.paper.specs.Meaning.{PapersSay, PapersLawful};

// A sound paper means a task that says what its records say.
pub fn papers_say()
    ensures { PapersSay }
{}

// A sound paper means a lawful task.
pub fn papers_are_lawful()
    ensures { PapersLawful }
{}
