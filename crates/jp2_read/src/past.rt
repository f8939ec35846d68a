// Over whole designations between cells.
ghost use Rattle.reading.specs.Decoding.{Leads};
ghost use Rattle.jp2_read.specs.Cursor.{jp2_code};

use crate::{Phase, State, escapes};

// Over the designations that come next, where the reader stands between cells: where they end, and the sets there.
pub fn pass(text: &[u8], from: usize, st: State) -> (usize, State)
    ensures { Leads jp2_code text.now from st result.0 result.1 }
{
    let Phase::Plain = st.phase else {
        return (from, st);
    };
    let mut at = from;
    let mut g0 = st.g0;
    let mut g2 = st.g2;
    let mut row = escapes::row_at(text, at);
    while row != 0 {
        g0 = escapes::g0_after(g0, row);
        g2 = escapes::g2_after(g2, row);
        at += (row % 8) as usize;
        row = escapes::row_at(text, at);
    }
    let phase = Phase::Plain;
    (at, State { g0, g2, phase })
}
