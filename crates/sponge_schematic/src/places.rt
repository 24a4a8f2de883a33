//! Finding a palette's places by number.

ghost use Rattle.std.specs.Prelude.{◌≡◌, ◌<◌, ◌^◌, length, IfOk, OnOk, None, ℤ, List, [], ◌∷◌, ◌++◌};
ghost use Rattle.sponge_schematic.specs.BlockData.{place_of};
ghost use Rattle.sponge_schematic.specs.Places.{natural, place_in, IsPut, IsTableOf};

use memory::Memory;
use std::alloc::Global;
use std::collections::BTreeMap;

/// Places by number: of numbers below the length of `small` there, of others in `large`.
#[derive(Drop)]
pub(crate) struct Table {
    pub(crate) small: Vec<Option<u32>>,
    pub(crate) large: BTreeMap<u32, u32>,
}

fn natural(number: &i32) -> Option<u32>
    ensures { result ≡ natural number.now }
{
    if *number < 0 {
        return None;
    }
    Some(*number as u32)
}

/// The place for a number.
pub(crate) fn place_in(table: &Table, number: u32) -> Option<u32>
    ensures { result ≡ place_in table.now number }
{
    if (number as usize) < table.small.len() {
        return table.small[number as usize];
    }
    table.large.get(&number).copied()
}

/// Puts the place for a number that has none yet.
fn put_new(table: &mut Table, number: u32, place: u32) -> Result<(), Memory>
    ensures { OnOk result (IsPut table.old table.new number place) }
{
    if (number as usize) < table.small.len() {
        table.small[number as usize] = Some(place);
        return Ok(());
    }
    table.large.insert(number, place)?;
    Ok(())
}

/// Puts the place for a number, if it is a natural one that has none yet.
fn put_first(table: &mut Table, number: &i32, place: u32) -> Result<(), Memory>
    ensures { OnOk result ((numbers : List ℤ) → length numbers ≡ place → IsTableOf table.old numbers
        → IsTableOf table.new (numbers ++ number.now ∷ [])) }
{
    let Some(number) = natural(number) else {
        return Ok(());
    };
    if place_in(table, number).is_some() {
        return Ok(());
    }
    put_new(table, number, place)
}

fn empty_table(alloc: Global, size: usize) -> Result<Table, Memory>
    ensures { IfOk result (λ table. IsTableOf table []) }
{
    let mut small = Vec::with_capacity(alloc, size)?;
    small.resize(size, None)?;
    Ok(Table {
        small,
        large: BTreeMap::new(alloc),
    })
}

/// The place of the first entry with each number.
pub(crate) fn table_of(alloc: Global, numbers: &[i32]) -> Result<Table, Memory>
    requires { length numbers.now < 2 ^ 32 }
    ensures { IfOk result (λ table. IsTableOf table numbers.now) }
{
    let mut table = empty_table(alloc, numbers.len())?;
    for (place, number) in numbers.iter().enumerate() {
        put_first(&mut table, number, place as u32)?;
    }
    Ok(table)
}

/// The palette's places by number.
#[derive(Drop)]
pub(crate) struct Places {
    pub(crate) numbers: Vec<i32>,
    table: Table,
    ghost right: { IsTableOf table numbers.items },
}

impl Places {
    /// The places of entries with these numbers.
    pub(crate) fn of(alloc: Global, numbers: Vec<i32>) -> Result<Places, Memory>
        requires { length numbers.items < 2 ^ 32 }
        ensures { IfOk result (λ places. places.numbers.items ≡ numbers.items) }
    {
        let table = table_of(alloc, &numbers)?;
        Ok(Places { numbers, table })
    }

    /// The place of the first entry with that number.
    pub(crate) fn place(&self, number: u32) -> Option<u32>
        ensures { result ≡ place_of self.now.numbers.items number }
    {
        place_in(&self.table, number)
    }
}
