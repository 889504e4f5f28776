//! What holds of lines by names. The contract of each function is the law; a call of it does nothing.

ghost use Rattle.wsm_named_lines.specs.Names.{KeepsSaid, ReadsByAll, StaysRead};

/// Lines that are read by the names so far are read as by all names that ever come.
pub fn read_by_all()
    ensures stays { StaysRead }
    ensures keeps { KeepsSaid }
    ensures all { ReadsByAll }
{}
