// Zeros: the buffers of a page, as long as a stack of 8 MiB holds them, and the output of a save or a keep beside them.
ghost use Rattle.std.specs.Prelude.{◌≡◌, length};
ghost use Rattle.desk_lines.specs.Desk.{file_room, room};

// A byte more than a page takes, so that a letter that is too long is refused with 16.
pub fn letter() -> [u8; 1048577]
    ensures { 1048577 ≡ length result }
{
    [0; 1048577]
}

pub fn arrived() -> [u8; 1048576]
    ensures { 1048576 ≡ length result }
{
    [0; 1048576]
}

pub fn text() -> [u32; 1048576]
    ensures { 1048576 ≡ length result }
{
    [0; 1048576]
}

pub fn output() -> [u8; 1572864]
    ensures { (file_room ≡ length result) × (result ≡ room) }
{
    [0; 1572864]
}

// A byte more than an output, so that a page file that is too long is seen.
pub fn page_file() -> [u8; 1572865]
    ensures { 1572865 ≡ length result }
{
    [0; 1572865]
}

// A line, with its LF.
pub fn lines() -> [u8; 65536]
    ensures { 65536 ≡ length result }
{
    [0; 65536]
}
