// Stepping for hosts: a cursor of plain numbers for each format. Every cursor is taken, whatever its numbers.
ghost use Rattle.std.specs.Prelude.{◌≡◌};
ghost use Rattle.host_steps.specs.Steps.{host_start, host_step, utf7_host, utf7_told, mailbox_host, mailbox_told, jp2_host, jp2_told};

use host_steps::{
    HostJp2Cursor, HostJp2Step, HostMailboxCursor, HostMailboxStep, HostUtf7Cursor, HostUtf7Step,
};

#[unsafe(no_mangle)]
pub extern "C" fn qalithonda_utf7_start() -> HostUtf7Cursor
    ensures { result ≡ host_start utf7_host }
{
    host_steps::utf7_start()
}

#[unsafe(no_mangle)]
pub extern "C" fn qalithonda_utf7_step(text: &[u8], cursor: HostUtf7Cursor) -> HostUtf7Step
    ensures { utf7_told result ≡ host_step utf7_host text.now cursor }
{
    host_steps::utf7_step(text, cursor)
}

#[unsafe(no_mangle)]
pub extern "C" fn qalithonda_mailbox_start() -> HostMailboxCursor
    ensures { result ≡ host_start mailbox_host }
{
    host_steps::mailbox_start()
}

#[unsafe(no_mangle)]
pub extern "C" fn qalithonda_mailbox_step(text: &[u8], cursor: HostMailboxCursor) -> HostMailboxStep
    ensures { mailbox_told result ≡ host_step mailbox_host text.now cursor }
{
    host_steps::mailbox_step(text, cursor)
}

#[unsafe(no_mangle)]
pub extern "C" fn qalithonda_jp2_start() -> HostJp2Cursor
    ensures { result ≡ host_start jp2_host }
{
    host_steps::jp2_start()
}

#[unsafe(no_mangle)]
pub extern "C" fn qalithonda_jp2_step(text: &[u8], cursor: HostJp2Cursor) -> HostJp2Step
    ensures { jp2_told result ≡ host_step jp2_host text.now cursor }
{
    host_steps::jp2_step(text, cursor)
}
