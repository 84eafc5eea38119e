// A paper in memory.
use crate::form::PaperForm;
use forms::document::Document;

// The table of a lawful task.
pub type Paper = Document<PaperForm>;
