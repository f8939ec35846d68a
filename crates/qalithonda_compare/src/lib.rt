// The C interface, its comparers. They are an object of their own in the archive: beside a second user of the steps, LLVM
// would no longer inline those into the steps for hosts, which would take twice as long.
#![tactic(auto)]

ghost use Rattle.std.specs.Prelude.{◌≡◌};
ghost use Rattle.codec.specs.declared.Format.TheVariants.{Utf7, Jp2, Mailbox};
ghost use Rattle.comparer.specs.Compare.{compare_of};
ghost use Rattle.host_compare.specs.Compared.{in_host, hears};

use codec::Format;
use host_compare::HostCompared;

#[unsafe(no_mangle)]
pub extern "C" fn qalithonda_utf7_compare(first: &[u8], second: &[u8]) -> HostCompared
    ensures { hears result ≡ in_host (compare_of Utf7 first.now second.now) }
{
    host_compare::compare(Format::Utf7, first, second)
}

#[unsafe(no_mangle)]
pub extern "C" fn qalithonda_jp2_compare(first: &[u8], second: &[u8]) -> HostCompared
    ensures { hears result ≡ in_host (compare_of Jp2 first.now second.now) }
{
    host_compare::compare(Format::Jp2, first, second)
}

#[unsafe(no_mangle)]
pub extern "C" fn qalithonda_mailbox_compare(first: &[u8], second: &[u8]) -> HostCompared
    ensures { hears result ≡ in_host (compare_of Mailbox first.now second.now) }
{
    host_compare::compare(Format::Mailbox, first, second)
}
