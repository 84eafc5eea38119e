// What holds of every form.
ghost use Rattle.forms.specs.Laws.{FormsLawful};

// Sound records of any form mean a lawful task.
pub fn forms_are_lawful()
    ensures { FormsLawful }
{}
