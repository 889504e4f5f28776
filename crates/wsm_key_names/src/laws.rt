//! What holds of names and their cells. The contract of each function is the law; a call of it does nothing.

ghost use Rattle.wsm_key_names.specs.Cell.{ReadsBack};
ghost use Rattle.wsm_key_names.specs.Reading.{ReadsByAll, StaysRead};

/// Rows that are read by the names so far are read as by all names that ever come.
pub fn read_by_all()
    ensures stays { StaysRead }
    ensures all { ReadsByAll }
{}

/// A line with the cell of a name is read as the name.
pub fn read_back()
    ensures { ReadsBack }
{}
