//! Types and resources by their numbers, and accesses to types.
ghost use Rattle.std.specs.Prelude.{◌<◌};

use msg_world::{Access, MAX_RESOURCES, MAX_TYPES, ResNo, TypeNo};

/// The type of this number.
pub fn type_no(number: u32) -> TypeNo
    requires below { number < MAX_TYPES }
{
    match TypeNo::new(number) {
        Some(t) => t,
        None => unreachable!(),
    }
}

/// The resource of this number.
pub fn res_no(number: u32) -> ResNo
    requires below { number < MAX_RESOURCES }
{
    match ResNo::new(number) {
        Some(r) => r,
        None => unreachable!(),
    }
}

/// The access that reads and writes the types of these bits.
pub fn of_types(read_types: u64, write_types: u64) -> Access {
    Access {
        read_types,
        write_types,
        ..Access::none()
    }
}
