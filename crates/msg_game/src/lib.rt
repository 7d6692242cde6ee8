//! A game in few lines: one crate to import from, a builder that knows its parts by names, and
//! `systems!`, which adds a system by a line. What it makes is an `EngineOf`, of which all holds that
//! holds of engines.
#![tactic(auto)]

mod game;
mod game_names;
mod ports;

pub use game::Game;
pub use game_names::GameNames;
pub use msg_exec::{EngineBuilder, EngineOf, Frame, Host, Log, NoGate, Workers};
pub use msg_function::{Either, Function, FunctionSystem, Inbox, NoMemory, Outbox, Port};
pub use msg_names::Names;
pub use msg_order::Rule;
pub use msg_system::{Condition, Start, SystemOf, added_up};
pub use msg_world::{Record, ResNo, TypeNo, Value, World};
pub use ports::in_order;
pub use std::alloc::Global;

/// Adds types of messages to a `Game`. Behind it each name is a variable with the type's number.
///
/// ```
/// types! { game; shots, walks, breaks }
/// ```
#[macro_export]
macro_rules! types {
    ($game:ident; $($name:ident),+ $(,)?) => {
        $(let $name = $game.add_type(stringify!($name))?;)+
    };
}

/// Adds resources to a `Game`, each with its first value. Behind it each name is a variable with the
/// resource's number.
///
/// ```
/// resources! { game; lives: Event::Lives(5) }
/// ```
#[macro_export]
macro_rules! resources {
    ($game:ident; $($name:ident: $value:expr),+ $(,)?) => {
        $(let $name = $game.add_resource(stringify!($name), $value)?;)+
    };
}

/// Adds functions to a `Game`, a line for each: a name, what it is, what it reads and writes, and
/// then its condition and the frame with which it joins, if it has one. Behind it each name is a
/// variable with the system's number; `as` gives another name to be printed.
///
/// A part may be written with the number by which the function asks for it, as in
/// `BREAKS = breaks`: the check then refuses a line in which the numbers aren't 0, 1, 2 and so on.
///
/// ```
/// systems! { game;
///     creep: Part::Creep(6), [SHOTS = shots] -> [WALKS = walks, BREAKS = breaks] if alive;
///     tower as "big tower": Part::Tower(3), [walks] -> [shots], join 12;
///     gate: Part::Gate, [breaks, lives] -> [lives];
/// }
/// ```
#[macro_export]
macro_rules! systems {
    ($game:ident; $($number:ident $(as $name:tt)?: $function:expr, [$($read:tt)*] -> [$($write:tt)*] $(if $condition:expr)? $(, join $join:expr)?;)*) => {
        $(let $number = $game.add_system(
            $crate::system_name!($number $($name)?),
            $crate::FunctionSystem::new(
                $game.alloc(),
                $function,
                $crate::ports!($($read)*),
                $crate::ports!($($write)*),
            )?,
            vec![in $game.alloc(); $($condition)?]?,
            1 $(- 1 + $join)?,
        )?;)*
    };
}

/// The name of a system: what stands behind `as`, or else that of its variable.
#[macro_export]
macro_rules! system_name {
    ($number:ident) => { stringify!($number) };
    ($number:ident $name:tt) => { $name };
}

/// Ports of types and resources, with the numbers by which a function asks for them or without.
#[macro_export]
macro_rules! ports {
    ($($number:path = $part:expr),+) => {
        $crate::in_order([$($number),+], [$($crate::Port::from($part)),+])
    };
    ($($part:expr),*) => { [$($crate::Port::from($part)),*] };
}
