//! The blocks of a world, as runs of states and boxes over them.

use crate::numbers::three_of;

/// A box of blocks. The blocks have the numbers of the states that the text names.
#[derive(Drop)]
pub struct Blocks<'a> {
    pub sizes: [i32; 3],
    pub least: [i32; 3],
    pub states: Vec<&'a str>,
    pub numbers: Vec<u16>,
}

/// Puts a run of blocks behind the others, as `stone` or `stone*16`.
pub fn push_run<'a>(blocks: &mut Blocks<'a>, word: &'a str) -> Option<()> {
    let (state, count) = match word.rsplit_once('*') {
        Some((state, count)) => (state, count.parse::<u32>().ok()?),
        None => (word, 1),
    };
    let number = number_of(&mut blocks.states, state)?;
    push_blocks(&mut blocks.numbers, number, count)
}

fn push_blocks(numbers: &mut Vec<u16>, number: u16, count: u32) -> Option<()> {
    for _ in 0..count {
        numbers.push(number).ok()?;
    }
    Some(())
}

/// The number of a state, a new one if it stands for the first time.
fn number_of<'a>(states: &mut Vec<&'a str>, state: &'a str) -> Option<u16> {
    let number = match states.iter().position(|known| *known == state) {
        Some(place) => place,
        None => push_state(states, state)?,
    };
    u16::try_from(number).ok()
}

fn push_state<'a>(states: &mut Vec<&'a str>, state: &'a str) -> Option<usize> {
    let place = states.len();
    states.push(state).ok()?;
    Some(place)
}

/// Changes the blocks of a box, as `0,0,0 stone` or `0,0,0 3,0,3 stone`.
pub fn set_box<'a>(blocks: &mut Blocks<'a>, text: &'a str) -> Option<()> {
    let (first, rest) = text.split_once(' ')?;
    let (second, state) = rest.split_once(' ').unwrap_or((first, rest));
    let number = number_of(&mut blocks.states, state)?;
    let [x0, y0, z0] = three_of(first, ',')?;
    let [x1, y1, z1] = three_of(second, ',')?;
    for y in y0..=y1 {
        for z in z0..=z1 {
            set_row(blocks, [x0, y, z], x1, number)?;
        }
    }
    Some(())
}

fn set_row(blocks: &mut Blocks<'_>, first: [i32; 3], last: i32, number: u16) -> Option<()> {
    let [x0, y, z] = first;
    for x in x0..=last {
        let place = place_of(&blocks.sizes, &blocks.least, [x, y, z])?;
        *blocks.numbers.get_mut(place)? = number;
    }
    Some(())
}

/// The place of a position in the box's order: x changes first, then z, then y.
fn place_of(sizes: &[i32; 3], least: &[i32; 3], at: [i32; 3]) -> Option<usize> {
    let [width, _height, length] = *sizes;
    let [x0, y0, z0] = *least;
    let [x, y, z] = at;
    let layer = y.wrapping_sub(y0).wrapping_mul(length);
    let row = layer.wrapping_add(z.wrapping_sub(z0)).wrapping_mul(width);
    usize::try_from(row.wrapping_add(x.wrapping_sub(x0))).ok()
}
