// What a system uses that reads and writes some parts.
ghost use Rattle.std.specs.Prelude.{◌≡◌, ◌||◌, false, option_and_then, slice_get};
ghost use Rattle.msg_world.specs.{declared.part.Part.Part, Prelude.reads, Prelude.same_part, Prelude.writes};
ghost use Rattle.msg_system.specs.Prelude.{IsAccessOf};
ghost use Rattle.msg_function.specs.Functions.{part_of, port_type, ports_needs, some_port_is};

use crate::Port;
use msg_system::Access;
use msg_world::TypeNo;

/// An access with reads of this part.
fn with_read(access: Access, port: Port) -> Access
    ensures reads { (p : Part)
        → reads result p ≡ (same_part p (part_of port) || reads access p) }
    ensures writes { (p : Part) → writes result p ≡ writes access p }
{
    match port {
        Port::Messages(t) => access.with_read_type(t),
        Port::Resource(r) => access.with_read_res(r),
    }
}

/// An access with writes to this part.
fn with_write(access: Access, port: Port) -> Access
    ensures reads { (p : Part) → reads result p ≡ reads access p }
    ensures writes { (p : Part)
        → writes result p ≡ (same_part p (part_of port) || writes access p) }
{
    match port {
        Port::Messages(t) => access.with_write_type(t),
        Port::Resource(r) => access.with_write_res(r),
    }
}

/// The access that reads these parts.
fn reading(ports: &[Port]) -> Access
    ensures reads { (p : Part) → reads result p ≡ some_port_is ports.now p }
    ensures writes { (p : Part) → writes result p ≡ false }
{
    let mut access = Access::none();
    for port in ports {
        access = with_read(access, *port);
    }
    access
}

/// An access that writes nothing yet, with writes to these parts.
fn writing(access: Access, ports: &[Port]) -> Access
    requires none { (p : Part) → writes access p ≡ false }
    ensures reads { (p : Part) → reads result p ≡ reads access p }
    ensures writes { (p : Part) → writes result p ≡ some_port_is ports.now p }
{
    let mut all = access;
    for port in ports {
        all = with_write(all, *port);
    }
    all
}

/// The type of port `k`, if there is such a port, and it is one.
pub(crate) fn type_at(ports: &[Port], k: usize) -> Option<TypeNo>
    ensures type_there { result ≡ option_and_then port_type (slice_get ports.now k) }
{
    match ports.get(k) {
        Some(Port::Messages(t)) => Some(*t),
        _ => None,
    }
}

/// The access of a system that reads and writes these parts.
pub(crate) fn access_of(reads: &[Port], writes: &[Port]) -> Access
    ensures needs { IsAccessOf (ports_needs reads.now writes.now) result }
{
    let access = writing(reading(reads), writes);
    // A resource that is written too isn't listed as read, but a type is: that is the clash.
    Access {
        read_res: access.read_res & !access.write_res,
        ..access
    }
}
