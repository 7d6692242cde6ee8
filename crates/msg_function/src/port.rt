use msg_world::{ResNo, TypeNo};

/// A part of a world that a system is given, or that it answers to.
#[derive(Clone, Copy, Debug, PartialEq, Eq)]
pub enum Port {
    /// The messages of a type.
    Messages(TypeNo),
    /// The value of a resource.
    Resource(ResNo),
}

impl From<TypeNo> for Port {
    ghost use Rattle.std.specs.Prelude.{◌≡◌};
    ghost use Rattle.msg_function.specs.declared.port.Port.TheVariants.{Messages};

    ghost from_gives = { λ t port. port ≡ Messages t };

    fn from(t: TypeNo) -> Port {
        Port::Messages(t)
    }
}

impl From<ResNo> for Port {
    ghost use Rattle.std.specs.Prelude.{◌≡◌};
    ghost use Rattle.msg_function.specs.declared.port.Port.TheVariants.{Resource};

    ghost from_gives = { λ r port. port ≡ Resource r };

    fn from(r: ResNo) -> Port {
        Port::Resource(r)
    }
}
