// Lists of a scenario file.
ghost use Rattle.std.specs.Prelude.{◌≡◌, map, option_map, unwrap_or};
ghost use Rattle.serde_json.specs.View.{view};
ghost use Rattle.msg_reading.specs.{Declarations.Declared, ScenarioFormat.each_from, ScenarioFormat.each_of, ScenarioFormat.nothing, inner.Elements.ReadsWith};

use crate::Fault;
use crate::read::names::Declarations;
use msg_frames::Items;
use msg_json::json;
use serde_json::Value;
use std::alloc::Global;

/// An element of a list in a scenario file. The names that it uses were declared before, and it may
/// declare one.
pub trait Element: Sized + Drop {
    ghost use Rattle.std.specs.Prelude.{ℕ};
    ghost use Rattle.serde_json.specs.Data.{Data};
    ghost use Rattle.msg_json.specs.Prelude.{Reading};

    /// What element n is, and the names that are declared after it.
    ghost reads: { Declared → ℕ → Data → Reading (Self × Declared) };

    /// Reads element n, and declares its name.
    fn read(alloc: Global, names: &mut Declarations, n: usize, value: &Value) -> Result<Self, Fault>
        ensures reads { ReadsWith (reads names.old n (view value.now)) names.new result };
}

/// The elements of a list that isn't longer than `most`; none, if there is no list.
pub fn read_list_if_there<T: Element>(
    alloc: Global,
    names: &mut Declarations,
    list: Option<&Value>,
    most: usize,
) -> Result<Items<T>, Fault>
    ensures reads { ReadsWith (each_of most T.reads names.old
        (unwrap_or (option_map (λ v. view v.now) list.entry) nothing)) names.new result }
{
    match list {
        Some(list) => read_list(alloc, names, list, most),
        None => Ok(Items::from_vec(Vec::new(alloc))),
    }
}

/// The elements of a list that isn't longer than `most`.
pub fn read_list<T: Element>(
    alloc: Global,
    names: &mut Declarations,
    list: &Value,
    most: usize,
) -> Result<Items<T>, Fault>
    ensures reads { ReadsWith (each_of most T.reads names.old (view list.now)) names.new result }
{
    let items = json::list(list, most)?;
    read_items(alloc, names, items)
}

fn read_items<T: Element>(
    alloc: Global,
    names: &mut Declarations,
    items: &[Value],
) -> Result<Items<T>, Fault>
    ensures reads { ReadsWith (each_from T.reads names.old 0 (map view items.now))
        names.new result }
{
    let mut read = Vec::new(alloc);
    for n in 0..items.len() {
        let element = T::read(alloc, names, n, &items[n])?;
        read.push(element)?;
    }
    Ok(Items::from_vec(read))
}
