// ISO-2022-JP-2 (RFC 1554) as document 01 states it: definitions, laws, and the table of the nine designations.
#![tactic(auto)]

ghost use Rattle.std.specs.Prelude.{◌≡◌, ◌<◌};
ghost use Rattle.jp2.specs.Table.{designations, row_at, sent, begins, is_list, row_of_number, row_of_escape, row_begun_by};
ghost use Rattle.jp2.specs.Rule.{graphic};
ghost use Rattle.jp2.specs.Writable.{ascii, pair_set, shift_set, writable, first_foreign};

// A set's registration number, its designation, and 0 or 2 for where that puts it: G0 or G2.
#[derive(Clone, Copy)]
pub struct Designation {
    pub number: u16,
    // the escape's bytes, ESC first; only the first `length` are sent
    pub escape: [u8; 4],
    pub length: usize,
    pub to: u8,
}

// In the order of document 01's table.
const TABLE: [Designation; 9] = [
    Designation {
        number: 6,
        escape: [27, 40, 66, 0],
        length: 3,
        to: 0,
    },
    Designation {
        number: 14,
        escape: [27, 40, 74, 0],
        length: 3,
        to: 0,
    },
    Designation {
        number: 42,
        escape: [27, 36, 64, 0],
        length: 3,
        to: 0,
    },
    Designation {
        number: 87,
        escape: [27, 36, 66, 0],
        length: 3,
        to: 0,
    },
    Designation {
        number: 58,
        escape: [27, 36, 65, 0],
        length: 3,
        to: 0,
    },
    Designation {
        number: 149,
        escape: [27, 36, 40, 67],
        length: 4,
        to: 0,
    },
    Designation {
        number: 159,
        escape: [27, 36, 40, 68],
        length: 4,
        to: 0,
    },
    Designation {
        number: 100,
        escape: [27, 46, 65, 0],
        length: 3,
        to: 2,
    },
    Designation {
        number: 126,
        escape: [27, 46, 70, 0],
        length: 3,
        to: 2,
    },
];

// A row of the table, or an empty one past its end.
#[tactic(auto, unfolding(crate::specs::Table::designations))]
pub fn row_at(i: usize) -> Designation
    ensures { result ≡ row_at i }
{
    if i < 9 {
        return TABLE[i];
    }
    Designation {
        number: 0,
        escape: [0, 0, 0, 0],
        length: 0,
        to: 0,
    }
}

// All rows, for a search that keeps them: the table is made anew at each use.
pub fn all_rows() -> [Designation; 9]
    ensures { result ≡ designations }
{
    TABLE
}

// The row of a set's registration number, or 9.
pub fn row_of_number(number: u16) -> usize
    ensures { result ≡ row_of_number number }
{
    for i in 0..9 {
        let d = row_at(i);
        if d.number == number {
            return i;
        }
    }
    9
}

impl Designation {
    // The escape's bytes, as they are sent.
    pub fn sent(&self) -> &[u8]
        ensures { result.now ≡ sent self.now }
    {
        &self.escape[..self.length.min(4)]
    }
}

// The first row whose escape begins with these bytes, or 9.
pub fn row_begun_by(bytes: &[u8]) -> usize
    ensures { result ≡ row_begun_by bytes.now }
{
    for i in 0..9 {
        let d = row_at(i);
        if d.sent().starts_with(bytes) {
            return i;
        }
    }
    9
}

// The row whose escape is these bytes, or 9.
pub fn row_of_escape(bytes: &[u8]) -> usize
    ensures { result ≡ row_of_escape bytes.now }
{
    for i in 0..9 {
        let d = row_at(i);
        if bytes == d.sent() {
            return i;
        }
    }
    9
}

#[tactic(auto, unfolding(crate::specs::Rule::graphic))]
pub fn is_graphic(b: u32) -> bool
    ensures { result ≡ graphic b }
{
    33 <= b && b <= 126
}

// The codes of set 6.
#[tactic(auto, unfolding(crate::specs::Writable::ascii))]
fn is_ascii(c: u32) -> bool
    ensures { result ≡ ascii c }
{
    c <= 127 && !matches!(c, 14 | 15 | 27)
}

#[tactic(auto, unfolding(crate::specs::Writable::pair_set))]
pub fn is_pair_set(n: u32) -> bool
    ensures { result ≡ pair_set n }
{
    matches!(n, 42 | 58 | 87 | 149 | 159)
}

#[tactic(auto, unfolding(crate::specs::Writable::shift_set))]
pub fn is_shift_set(n: u32) -> bool
    ensures { result ≡ shift_set n }
{
    matches!(n, 100 | 126)
}

#[tactic(auto, unfolding(crate::specs::Writable::codes, crate::specs::Writable::writable))]
pub fn is_writable(v: u32) -> bool
    ensures { result ≡ writable v }
{
    let n = v / 65536;
    let c = v % 65536;
    if n == 6 {
        is_ascii(c)
    } else if n == 14 {
        is_graphic(c)
    } else if is_pair_set(n) {
        is_graphic(c / 256) && is_graphic(c % 256)
    } else {
        is_shift_set(n) && 32 <= c && c <= 127
    }
}

// The index of the first cell that is not writable, or the length.
pub fn first_foreign(cells: &[u32]) -> usize
    ensures { result ≡ first_foreign cells.now }
{
    for (i, v) in cells.iter().enumerate() {
        if !is_writable(*v) {
            return i;
        }
    }
    cells.len()
}
