// The lines of a page file: its page, and where its lists lie.
ghost use Rattle.std.specs.Prelude.{◌≡◌, true, false, cond, ◌+◌, ◌*◌, ◌≤◌, length, drop};
ghost use Rattle.answer.specs.Bytes.{bytes};
ghost use Rattle.parsing.specs.Parsing.{either, literal};
ghost use Rattle.parsing.specs.Digits.{LF};
ghost use Rattle.scan.specs.Found.{found_in, passed_in};
ghost use Rattle.page_file.specs.File.{form1, form2};
ghost use Rattle.page_file.specs.Reading.{kind_name, decimal, mark, least, content_lines, lines_of, parse};
ghost use Rattle.page_file.specs.Inner.{form_if};
ghost use Rattle.page_read.specs.Inner.{kind_of, kind_in, mark_in, key_line, key_list};
ghost use Rattle.page_read.specs.Inner.{listed_in, list_lines, head_then, plan_in, Lies, Planned};

use codec::Kind;
use ledger::Page;
use scan::Found;

// A mark and the place behind it, or the place of the first byte that cannot stand there.
#[derive(Clone, Copy)]
pub struct FoundMark {
    pub ok: bool,
    pub mark: Option<usize>,
    pub at: usize,
}

// A list's first digit, how many numbers it holds, and the place behind its line.
#[derive(Clone, Copy)]
pub struct Listed {
    pub ok: bool,
    pub from: usize,
    pub count: usize,
    pub at: usize,
}

// The page of the first seven lines, whether they are of form 2, and the place behind them.
#[derive(Clone, Copy)]
pub struct Head {
    pub ok: bool,
    pub two: bool,
    pub page: Page,
    pub at: usize,
}

// A file's page, and where its lists begin; or the place of 18.
#[derive(Clone, Copy)]
pub struct Plan {
    pub ok: bool,
    pub at: usize,
    pub page: Page,
    pub arrived: usize,
    pub count: usize,
    pub text: usize,
    pub history: usize,
}

fn failed(at: usize) -> Found
    ensures { (result.ok ≡ false) × (result.at ≡ at) }
{
    Found {
        ok: false,
        value: 0,
        at,
    }
}

// A value, if LF stands behind it.
fn ended(file: &[u8], value: usize, at: usize) -> Found
    ensures { (result.value ≡ value)
        × (passed_in file.now result ≡ literal LF (drop at file.now) at) }
{
    let end = scan::word(file, at, b"\n");
    Found {
        ok: end.ok,
        value,
        at: end.at,
    }
}

fn number_line(file: &[u8], from: usize, key: &[u8], two: bool) -> Found
    ensures { found_in file.now result
        ≡ key_line key.now (decimal (form_if two)) (drop from file.now) from }
{
    let start = scan::word(file, from, key);
    if !start.ok {
        return failed(start.at);
    }
    let value = scan::decimal(file, start.at, two);
    if !value.ok {
        return failed(value.at);
    }
    ended(file, value.value, value.at)
}

// The name of a kind.
fn kind_name(file: &[u8], from: usize) -> Found
    ensures { kind_in file.now result ≡ kind_name (drop from file.now) from }
{
    let header = scan::word(file, from, b"utf7h");
    if header.ok {
        return Found {
            ok: true,
            value: 0,
            at: header.at,
        };
    }
    let body = scan::word(file, from, b"utf7b");
    if body.ok {
        return Found {
            ok: true,
            value: 1,
            at: body.at,
        };
    }
    let jp2 = scan::word(file, from, b"jp2");
    let last = page_file::greater(body.at, jp2.at);
    if jp2.ok {
        return Found {
            ok: true,
            value: 2,
            at: jp2.at,
        };
    }
    failed(page_file::greater(header.at, last))
}

fn kind_line(file: &[u8], from: usize) -> Found
    ensures { kind_in file.now result
        ≡ key_line (bytes "kind=") kind_name (drop from file.now) from }
{
    let start = scan::word(file, from, b"kind=");
    if !start.ok {
        return failed(start.at);
    }
    let name = kind_name(file, start.at);
    if !name.ok {
        return failed(name.at);
    }
    ended(file, name.value, name.at)
}

fn kind_of(value: usize) -> Kind
    ensures { result ≡ kind_of value }
{
    if value == 0 {
        return Kind::Utf7Header;
    }
    if value == 1 {
        return Kind::Utf7Body;
    }
    Kind::Jp2
}

fn no_mark(at: usize) -> FoundMark
    ensures { (result.ok ≡ false) × (result.at ≡ at) }
{
    let mark = None;
    FoundMark {
        ok: false,
        mark,
        at,
    }
}

// "none", or a number.
fn mark_value(file: &[u8], from: usize, two: bool) -> FoundMark
    ensures { mark_in file.now result ≡ mark (form_if two) (drop from file.now) from }
{
    let none = scan::word(file, from, b"none");
    if none.ok {
        let mark = None;
        return FoundMark {
            ok: true,
            mark,
            at: none.at,
        };
    }
    let value = scan::decimal(file, from, two);
    if value.ok {
        let mark = Some(value.value);
        return FoundMark {
            ok: true,
            mark,
            at: value.at,
        };
    }
    no_mark(page_file::greater(none.at, value.at))
}

fn mark_line(file: &[u8], from: usize, two: bool) -> FoundMark
    ensures { mark_in file.now result
        ≡ key_line (bytes "saved=") (mark (form_if two)) (drop from file.now) from }
{
    let start = scan::word(file, from, b"saved=");
    if !start.ok {
        return no_mark(start.at);
    }
    let value = mark_value(file, start.at, two);
    if !value.ok {
        return no_mark(value.at);
    }
    let end = ended(file, 0, value.at);
    let mark = value.mark;
    FoundMark {
        ok: end.ok,
        mark,
        at: end.at,
    }
}

fn no_head(at: usize) -> Head
    ensures { (result.ok ≡ false) × (result.at ≡ at) }
{
    let kind = Kind::Utf7Header;
    let saved = None;
    Head {
        ok: false,
        two: false,
        page: Page {
            kind,
            opening: 0,
            length: 0,
            used: 0,
            done: 0,
            saved,
        },
        at,
    }
}

fn head_of(
    kind: Kind,
    opening: usize,
    length: usize,
    used: usize,
    done: usize,
    saved: Option<usize>,
    two: bool,
    at: usize,
) -> Head
    ensures { (result.ok ≡ true) × (result.at ≡ at)
        × (result.page
        ≡ record { kind = kind; opening = opening; length = length; used = used; done = done; saved = saved })
        × (result.two ≡ two) }
{
    Head {
        ok: true,
        two,
        page: Page {
            kind,
            opening,
            length,
            used,
            done,
            saved,
        },
        at,
    }
}

// The lines from the second to the seventh, of a form.
fn page_lines(file: &[u8], from: usize, two: bool) -> Head
    ensures { head_then file.now result
        ≡ content_lines (form_if two) (drop from file.now) from }
{
    let kind = kind_line(file, from);
    if !kind.ok {
        return no_head(kind.at);
    }
    let opening = number_line(file, kind.at, b"opening=", two);
    if !opening.ok {
        return no_head(opening.at);
    }
    let length = number_line(file, opening.at, b"length=", two);
    if !length.ok {
        return no_head(length.at);
    }
    let used = number_line(file, length.at, b"used=", two);
    if !used.ok {
        return no_head(used.at);
    }
    let done = number_line(file, used.at, b"done=", two);
    if !done.ok {
        return no_head(done.at);
    }
    let saved = mark_line(file, done.at, two);
    if !saved.ok {
        return no_head(saved.at);
    }
    let name = kind_of(kind.value);
    let mark = saved.mark;
    head_of(
        name,
        opening.value,
        length.value,
        used.value,
        done.value,
        mark,
        two,
        saved.at,
    )
}

// The first seven lines, of the form that the first names.
fn first_lines(file: &[u8]) -> Head
    ensures { head_then file.now result ≡ either (lines_of form1) (lines_of form2) file.now 0 }
{
    let one = scan::word(file, 0, b"form=1\n");
    if one.ok {
        return page_lines(file, one.at, false);
    }
    let two = scan::word(file, 0, b"form=2\n");
    if two.ok {
        return page_lines(file, two.at, true);
    }
    no_head(page_file::greater(one.at, two.at))
}

fn no_list(at: usize) -> Listed
    ensures { (result.ok ≡ false) × (result.at ≡ at) }
{
    Listed {
        ok: false,
        from: 0,
        count: 0,
        at,
    }
}

// The fewest arrived bytes of a form, and the most.
fn least_of(two: bool, page: Page) -> usize
    ensures { result ≡ least (form_if two) page }
{
    if !two {
        return 0;
    }
    if 65537 <= page_file::greatest_of(page) {
        return 0;
    }
    65537
}

fn most_of(two: bool) -> usize
    ensures { result ≡ (form_if two).bound }
{
    if two {
        return 1048576;
    }
    65536
}

fn arrived_line(file: &[u8], from: usize, two: bool, page: Page) -> Listed
    ensures { (listed_in 2 file.now result
        ≡ key_list (bytes "arrived=") 2 (least (form_if two) page) (form_if two).bound
        (drop from file.now) from)
        × Lies 2 file.now result }
{
    let key = scan::word(file, from, b"arrived=");
    if !key.ok {
        return no_list(key.at);
    }
    let least = least_of(two, page);
    let most = most_of(two);
    let line = scan::bytes_line(file, key.at, least, most);
    Listed {
        ok: line.ok,
        from: key.at,
        count: line.value,
        at: line.at,
    }
}

fn words_line(file: &[u8], from: usize, key: &[u8], n: usize) -> Listed
    ensures { (listed_in 8 file.now result
        ≡ key_list key.now 8 n n (drop from file.now) from)
        × Lies 8 file.now result × (result.ok ≡ true → result.count ≡ n) }
{
    let start = scan::word(file, from, key);
    if !start.ok {
        return no_list(start.at);
    }
    let line = scan::words_line(file, start.at, n);
    Listed {
        ok: line.ok,
        from: start.at,
        count: line.value,
        at: line.at,
    }
}

fn no_plan(at: usize) -> Plan
    ensures { (result.ok ≡ false) × (result.at ≡ at) }
{
    let none = no_head(at);
    let page = none.page;
    Plan {
        ok: false,
        at,
        page,
        arrived: 0,
        count: 0,
        text: 0,
        history: 0,
    }
}

// The file's page and lists, or the place of 18.
pub fn plan_of(file: &[u8]) -> Plan
    ensures { (plan_in file.now result ≡ parse file.now) × Planned file.now result }
{
    let first = first_lines(file);
    if !first.ok {
        return no_plan(first.at);
    }
    let page = first.page;
    let arrived = arrived_line(file, first.at, first.two, page);
    if !arrived.ok {
        return no_plan(arrived.at);
    }
    let text = words_line(file, arrived.at, b"text=", page.length);
    if !text.ok {
        return no_plan(text.at);
    }
    let history = words_line(file, text.at, b"history=", page.used);
    if !history.ok {
        return no_plan(history.at);
    }
    if history.at != file.len() {
        return no_plan(history.at);
    }
    Plan {
        ok: true,
        at: history.at,
        page,
        arrived: arrived.from,
        count: arrived.count,
        text: text.from,
        history: history.from,
    }
}
