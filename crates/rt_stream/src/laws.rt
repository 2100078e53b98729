ghost use Rattle.rt_stream.specs.Laws.{AreLight, AreUnguarded, AreValid, PutIntComputes, PutIntIsCheap, PutLineComputes};

/// A call of the first routine puts an int in decimal, with blanks before it up to a width.
pub fn put_int_computes()
    ensures run { PutIntComputes }
    ensures cost { PutIntIsCheap }
{}

/// A call of the second routine puts the end of a line.
pub fn put_line_computes()
    ensures { PutLineComputes }
{}

/// The routines may stand in every unit, have no Guards, and are small.
pub fn routines_are_valid()
    ensures valid { AreValid }
    ensures unguarded { AreUnguarded }
    ensures weight { AreLight }
{}
