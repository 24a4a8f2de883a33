//! Numbers kept in words.
ghost use Rattle.std.specs.Prelude.{◌≡◌, ◌^◌, ◌<◌, ◌≤◌, All, IfOk, OnOk, length, get_or, replicate};
ghost use Rattle.chunk_sections.specs.Packed.{bits_of, words_of, words_needed, number_at, unpacked};

use crate::packing::{number_at, packed, unpack_as};
use crate::width::Width;
use memory::Memory;
use std::alloc::Global;
use std::marker::Model;

/// Numbers of one width, packed into words: as many to a word as fit whole, lowest bits first.
#[derive(Drop)]
pub struct Packed {
    width: Width,
    count: u32,
    words: Vec<u64>,
}

impl Model for Packed {
    ghost use Rattle.std.specs.Prelude.{◌≡◌};
    ghost use Rattle.chunk_sections.specs.Packed.{PackedNumbers, bits_of, words_of, unpacked, packed_numbers};

    ghost Value = { PackedNumbers };

    ghost view = { λ p. packed_numbers (bits_of p.width) p.count p.words.items };

    ghost invariant = { λ p. p.words.items ≡ words_of (bits_of p.width) (unpacked (bits_of p.width) p.count p.words.items) };
}

impl Packed {
    /// The numbers, packed. Each has to be of the width.
    pub fn pack(alloc: Global, width: Width, numbers: &[u32]) -> Result<Packed, Memory>
        requires fit { All (λ n. n < 2 ^ bits_of width) numbers.now }
        requires few { length numbers.now < 2 ^ 32 }
        ensures { IfOk result (λ p. p ≡ record { bits = bits_of width; numbers = numbers.now }) }
    {
        let words = words_of(alloc, width, numbers)?;
        Ok(Packed {
            width,
            count: numbers.len() as u32,
            words,
        })
    }

    /// How many numbers there are.
    pub fn len(&self) -> u32
        ensures { result ≡ length self.now.numbers }
    {
        self.count
    }

    /// The words.
    pub fn words(&self) -> &[u64]
        ensures { result.now ≡ words_of self.now.bits self.now.numbers }
    {
        &self.words
    }

    /// The number at a place.
    #[inline(always)]
    pub fn get(&self, i: u32) -> u32
        requires { i < length self.now.numbers }
        ensures { result ≡ get_or self.now.numbers i 0 }
    {
        number_in(
            self.words.as_slice(),
            self.width,
            self.count as usize,
            i as usize,
        )
    }

    /// The numbers, into a buffer. After `Memory` the buffer has any content.
    pub fn unpack(&self, numbers: &mut Vec<u32>) -> Result<(), Memory>
        ensures { OnOk result (numbers.new.items ≡ self.now.numbers) }
    {
        zeros(numbers, self.count as usize)?;
        fill(self.words.as_slice(), self.width, numbers);
        Ok(())
    }
}

/// Makes a buffer so many zeros.
fn zeros(numbers: &mut Vec<u32>, count: usize) -> Result<(), Memory>
    ensures { OnOk result (numbers.new.items ≡ replicate count 0) }
{
    numbers.clear();
    numbers.resize(count, 0)?;
    Ok(())
}

/// Writes the numbers of words over as many zeros.
fn fill(words: &[u64], width: Width, numbers: &mut Vec<u32>)
    requires long { length words.now ≡ words_needed (bits_of width) (length numbers.old.items) }
    requires zeros { numbers.old.items ≡ replicate (length numbers.old.items) 0 }
    ensures { numbers.new.items ≡ unpacked (bits_of width) (length numbers.old.items) words.now }
{
    match width {
        Width::Zero => {}
        Width::One => unpack_as(words, 1, 2, 64, numbers),
        Width::Two => unpack_as(words, 2, 4, 32, numbers),
        Width::Four => unpack_as(words, 4, 16, 16, numbers),
        Width::Eight => unpack_as(words, 8, 256, 8, numbers),
        Width::Twelve => unpack_as(words, 12, 4096, 5, numbers),
    }
}

fn words_of(alloc: Global, width: Width, numbers: &[u32]) -> Result<Vec<u64>, Memory>
    requires fit { All (λ n. n < 2 ^ bits_of width) numbers.now }
    requires few { length numbers.now < 2 ^ 32 }
    ensures { IfOk result (λ words. words.items ≡ words_of (bits_of width) numbers.now) }
{
    match width {
        Width::Zero => Ok(Vec::new(alloc)),
        Width::One => packed(alloc, numbers, 2, 64),
        Width::Two => packed(alloc, numbers, 4, 32),
        Width::Four => packed(alloc, numbers, 16, 16),
        Width::Eight => packed(alloc, numbers, 256, 8),
        Width::Twelve => packed(alloc, numbers, 4096, 5),
    }
}

/// The number at a place of the words of `count` numbers.
#[inline(always)]
fn number_in(words: &[u64], width: Width, count: usize, i: usize) -> u32
    requires long { length words.now ≡ words_needed (bits_of width) count }
    requires there { i < count }
    ensures { result ≡ number_at (bits_of width) words.now i }
{
    match width {
        Width::Zero => 0,
        Width::One => number_at(words, i, 1, 2, 64),
        Width::Two => number_at(words, i, 2, 4, 32),
        Width::Four => number_at(words, i, 4, 16, 16),
        Width::Eight => number_at(words, i, 8, 256, 8),
        Width::Twelve => number_at(words, i, 12, 4096, 5),
    }
}
