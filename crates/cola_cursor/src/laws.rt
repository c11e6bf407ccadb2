//! Laws of cursors over every object of cells.
ghost use Rattle.cola_cursor.specs.Laws.{StaysStanding, PairsStayAhead};

/// A call on the object that leaves the cells of a cursor's runs leaves the cursor where it stands, and the pairs
/// ahead of it.
pub fn cursor_stays()
    ensures stands { StaysStanding }
    ensures ahead { PairsStayAhead }
{}
