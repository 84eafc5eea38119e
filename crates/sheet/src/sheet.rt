// A sheet in memory.
use crate::form::SheetForm;
use forms::document::Document;

// The table of a lawful task.
pub type Sheet = Document<SheetForm>;
