// A game that is put together.
ghost use Rattle.std.specs.Prelude.{◌≡◌, ◌+◌, ◌++◌, [], ◌∷◌, IfOk, OnOk, length, map, replicate};
ghost use Rattle.msg_world.specs.Prelude.{new_world};
ghost use Rattle.msg_frames.specs.Prelude.{first_state};
ghost use Rattle.msg_exec.specs.Prelude.{HasRunSince, IsEngine, numbered_from};

use crate::GameNames;
use msg_exec::{EngineBuilder, EngineOf};
use msg_order::Rule;
use msg_system::{Condition, Numbered, SystemOf};
use msg_world::{MAX_RESOURCES, MAX_TYPES, ResNo, TypeNo, Value, World};
use std::alloc::Global;
use std::marker::Model;

/// Types, resources and systems, each with its name, of which a game is made.
///
/// ```
/// let mut game = Game::new(alloc);
/// types! { game; shots, walks }
/// resources! { game; lives: Event::Lives(5) }
/// systems! { game;
///     creep: Part::Creep(6), [shots] -> [walks];
///     tower: Part::Tower(3), [walks] -> [shots];
/// }
/// let (mut engine, names) = game.build()?;
/// engine.run_loop(&rt, &mut host, 1_000, workers)?;
/// names.tell(&rt, &engine)?;
/// ```
#[derive(Drop)]
pub struct Game<S, V> {
    alloc: Global,
    systems: EngineBuilder<S, V>,
    values: Vec<V>,
    names: GameNames,
}

impl<S, V> Model for Game<S, V> {
    ghost use Rattle.std.specs.Prelude.{◌≤◌, length};
    ghost use Rattle.msg_world.specs.declared.limits.TheConstants.{MAX_RESOURCES, MAX_TYPES};
    ghost use Rattle.msg_game.specs.Games.{InGame};

    ghost Value = { InGame S V };

    ghost view = { λ g. record {
      added = g.systems;
      types = length g.names.types.items;
      values = g.values.items;
    } };

    ghost invariant = { λ g. (length g.names.types.items ≤ MAX_TYPES)
        × (length g.values.items ≤ MAX_RESOURCES) };
}

impl<V: Value, S: Numbered + SystemOf<Value = V>> Game<S, V> {
    /// Nothing is in it yet. It takes no memory.
    pub fn new(alloc: Global) -> Game<S, V>
        ensures new { result ≡ record {
          added = record { systems = []; places = []; rules = [] };
          types = 0;
          values = [];
        } }
    {
        Game {
            alloc,
            systems: EngineBuilder::new(alloc),
            values: Vec::new(alloc),
            names: GameNames::new(alloc),
        }
    }

    /// The allocator that it was made with.
    pub fn alloc(&self) -> Global {
        self.alloc
    }

    /// Adds a type of messages, whose numbers never run out. `types!` adds many.
    ///
    /// # Errors
    ///
    /// If there are `MAX_TYPES` types, and for want of memory.
    pub fn add_type(&mut self, name: &'static str) -> anyhow::Result<TypeNo>
        ensures added { OnOk result
            (self.new ≡ record self.old { types = self.old.types + 1 }) }
        ensures number { IfOk result (λ number. number ≡ self.old.types) }
    {
        let number = self.names.types.len();
        anyhow::ensure!(number < MAX_TYPES, "a game has at most {MAX_TYPES} types");
        self.names.types.push(name)?;
        Ok(TypeNo::of(number as u32))
    }

    /// Adds a resource with its first value. `resources!` adds many.
    ///
    /// # Errors
    ///
    /// If there are `MAX_RESOURCES` resources, and for want of memory.
    pub fn add_resource(&mut self, name: &'static str, value: V) -> anyhow::Result<ResNo>
        ensures added { OnOk result
            (self.new ≡ record self.old { values = self.old.values ++ value ∷ [] }) }
        ensures number { IfOk result (λ number. number ≡ length self.old.values) }
    {
        let number = self.values.len();
        anyhow::ensure!(
            number < MAX_RESOURCES,
            "a game has at most {MAX_RESOURCES} resources"
        );
        self.names.resources.push(name)?;
        self.values.push(value)?;
        Ok(ResNo::of(number as u32))
    }

    /// Adds a system that takes its turns from the frame `join` on, if all its conditions hold, and
    /// gives its number. `systems!` adds functions by a line each.
    ///
    /// # Errors
    ///
    /// As `EngineBuilder::add_system`.
    pub fn add_system(
        &mut self,
        name: &'static str,
        system: S,
        conditions: Vec<Condition<V>>,
        join: u32,
    ) -> anyhow::Result<u32>
        ensures added { OnOk result (self.new ≡ record self.old {
          added = record self.old.added {
            systems = self.old.added.systems ++ system ∷ [];
            places = self.old.added.places
                ++ record { conditions = conditions.items; join = join } ∷ [];
          };
        }) }
        ensures number { IfOk result (λ number. number ≡ length self.old.added.systems) }
    {
        self.names.systems.push(name)?;
        Ok(self.systems.add_system(system, conditions, join)?)
    }

    /// Adds a rule of two systems.
    ///
    /// # Errors
    ///
    /// For want of memory.
    pub fn add_rule(&mut self, rule: Rule) -> anyhow::Result<()>
        ensures added { OnOk result (self.new ≡ record self.old {
          added = record self.old.added { rules = self.old.added.rules ++ rule ∷ [] };
        }) }
    {
        Ok(self.systems.add_rule(rule)?)
    }

    /// The engine of all this, with no frame run, and its names.
    ///
    /// # Errors
    ///
    /// As `EngineBuilder::build`.
    pub fn build(self) -> anyhow::Result<(EngineOf<S, V>, GameNames)>
        ensures since { IfOk result (λ made. HasRunSince S.meaning (first_state
            (numbered_from 0 (map S.meaning self.added.systems)) self.added.places
            self.added.rules self.types (length self.values)
            (new_world V.values (replicate self.types u64.MAX) self.values)) [] [] made.0) }
        ensures engine { IfOk result (λ made. IsEngine V.values S.meaning made.0) }
    {
        let types = self.names.types.len();
        let world = World::unlimited(self.alloc, types, self.values.as_slice())?;
        Ok((self.systems.build(world)?, self.names))
    }
}
