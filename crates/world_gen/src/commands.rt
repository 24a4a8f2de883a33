//! The commands of a group.

ghost use Rattle.std.specs.Prelude.{◌≡◌, ◌<◌, ◌+◌, IfOk, [], ◌∷◌};
ghost use Rattle.edit_terms.specs.declared.script.Command.TheVariants.{Replace};
ghost use Rattle.world_gen.specs.Drill.{corner, pattern_of, stone_mask, command_by, state_by, drill_word};

use crate::states::{state_by, stone};
use edit_terms::{
    Command, Direction, Entry, Items, Leaf, Mask, Pattern, Pos, Term, Value, random_word,
};
use memory::Memory;
use std::alloc::Global;

/// The random word of this number, 0 to 7, of a player's group.
pub(crate) fn drill_word(number: u64, player: u32, group: u32, word: u32) -> u32
    requires group { group < 50 }
    requires word { word < 8 }
    ensures { result ≡ drill_word number player group word }
{
    random_word(number, u64::from(player), u128::from(8 * group + word))
}

/// A position in the columns of a player, 0 to 7, by three random words.
pub(crate) fn corner(player: u32, a: u32, b: u32, c: u32) -> Pos
    requires { player < 8 }
    ensures { result ≡ corner player a b c }
{
    Pos {
        x: (32 * player + a % 32) as i32,
        y: (b % 32) as i32,
        z: (c % 64) as i32,
    }
}

/// The corner that three random words of a player's group choose, from this word on.
pub(crate) fn corner_by(number: u64, player: u32, group: u32, first: u32) -> Pos
    requires player { player < 8 }
    requires group { group < 50 }
    requires first { first < 6 }
    ensures { result ≡ corner player (drill_word number player group first) (drill_word number player group (first + 1)) (drill_word number player group (first + 2)) }
{
    corner(
        player,
        drill_word(number, player, group, first),
        drill_word(number, player, group, first + 1),
        drill_word(number, player, group, first + 2),
    )
}

/// What is done in a group, by two random words: which command, and with which state.
pub(crate) fn command_by(alloc: Global, choice: u32, state: u32) -> Result<Command, Memory>
    ensures { IfOk result (λ command. command ≡ command_by choice (pattern_of (state_by state))) }
{
    let pattern = pattern_by(alloc, state)?;
    match choice % 6 {
        0 => Ok(Command::Set { pattern }),
        1 => Ok(Command::Walls { pattern }),
        2 => Ok(Command::Faces { pattern }),
        3 => replaced_stone(alloc, pattern),
        4 => Ok(Command::Stack {
            count: 1,
            to: Direction::Up,
        }),
        _ => Ok(Command::Undo { count: 1 }),
    }
}

/// The command that puts a pattern in the place of stone.
fn replaced_stone(alloc: Global, pattern: Pattern) -> Result<Command, Memory>
    ensures { IfOk result (λ command. command ≡ Replace stone_mask pattern) }
{
    Ok(Command::Replace {
        mask: stone_mask(alloc)?,
        pattern,
    })
}

/// A pattern of one state, by a random word.
fn pattern_by(alloc: Global, word: u32) -> Result<Pattern, Memory>
    ensures { IfOk result (λ pattern. pattern ≡ pattern_of (state_by word)) }
{
    let entry = Entry {
        weight: 1,
        value: Value::Fixed(state_by(alloc, word)?),
    };
    Ok(Pattern {
        entries: Items::from_vec(single(alloc, entry)?),
    })
}

/// The mask that holds where stone stands.
fn stone_mask(alloc: Global) -> Result<Mask, Memory>
    ensures { IfOk result (λ mask. mask ≡ stone_mask) }
{
    let states = single(alloc, stone(alloc)?)?;
    let term = Term {
        signs: Items::from_vec(Vec::new(alloc)),
        leaf: Leaf::OneOf(Items::from_vec(states)),
    };
    Ok(Mask {
        terms: Items::from_vec(single(alloc, term)?),
    })
}

/// A list of one item.
fn single<T: Drop>(alloc: Global, item: T) -> Result<Vec<T>, Memory>
    ensures { IfOk result (λ list. list.items ≡ item ∷ []) }
{
    let mut list = Vec::new(alloc);
    list.push(item)?;
    Ok(list)
}
