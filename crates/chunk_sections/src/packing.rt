//! Numbers into words and back, at one width.
ghost use Rattle.std.specs.Prelude.{◌≡◌, ◌+◌, ◌*◌, ◌/◌, ◌%◌, ◌^◌, ◌<◌, ◌≤◌, All, IfOk, length, get_or};
ghost use Rattle.chunk_sections.specs.Packed.{number_of, word_of, word_count, packed, number_as, unpacked_as};

use memory::Memory;
use std::alloc::Global;

/// The number of these digits in a base, the lowest first.
#[inline(always)]
fn number_of(digits: &[u32], base: u64) -> u64
    requires fit { All (λ d. d < base) digits.now }
    requires room { base ^ length digits.now ≤ 2 ^ 64 }
    ensures { result ≡ number_of base digits.now }
{
    let mut number = 0;
    let mut left = digits.len();
    while left > 0 {
        left -= 1;
        number = number * base + digits[left] as u64;
    }
    number
}

/// Word `k` of numbers that are packed `per` to a word.
#[inline(always)]
fn word_of(numbers: &[u32], k: usize, base: u64, per: usize) -> u64
    requires fit { All (λ d. d < base) numbers.now }
    requires room { base ^ per ≤ 2 ^ 64 }
    requires some { 0 < base }
    requires there { k * per < length numbers.now }
    requires few { length numbers.now < 2 ^ 32 }
    requires per { per ≤ 64 }
    ensures { result ≡ word_of base per numbers.now k }
{
    let start = k * per;
    let end = numbers.len().min(start + per);
    number_of(&numbers[start..end], base)
}

/// The words of numbers that are packed `per` to a word.
#[inline(always)]
pub(crate) fn packed(
    alloc: Global,
    numbers: &[u32],
    base: u64,
    per: usize,
) -> Result<Vec<u64>, Memory>
    requires fit { All (λ d. d < base) numbers.now }
    requires room { base ^ per ≤ 2 ^ 64 }
    requires some { 0 < base }
    requires few { length numbers.now < 2 ^ 32 }
    requires one { 0 < per }
    requires per { per ≤ 64 }
    ensures { IfOk result (λ words. words.items ≡ packed base per numbers.now) }
{
    let count = (numbers.len() + per - 1) / per;
    let mut words = vec![in alloc; 0u64; count]?;
    for k in 0..count {
        words[k] = word_of(numbers, k, base, per);
    }
    Ok(words)
}

/// The number at a place of words that hold `per` to a word.
#[inline(always)]
pub(crate) fn number_at(words: &[u64], i: usize, bits: u32, base: u64, per: usize) -> u32
    requires there { i / per < length words.now }
    requires base { base ≡ 2 ^ bits }
    requires narrow { bits ≤ 12 }
    requires one { 0 < per }
    requires per { per ≤ 64 }
    requires room { bits * per ≤ 64 }
    ensures { result ≡ number_as bits per words.now i }
{
    let shift = bits * (i % per) as u32;
    ((words[i / per] >> shift) % base) as u32
}

/// Writes over a buffer the numbers of words that hold `per` to a word.
#[inline(always)]
pub(crate) fn unpack_as(words: &[u64], bits: u32, base: u64, per: usize, numbers: &mut Vec<u32>)
    requires there { length words.now ≡ word_count per (length numbers.old.items) }
    requires base { base ≡ 2 ^ bits }
    requires narrow { bits ≤ 12 }
    requires one { 0 < per }
    requires per { per ≤ 64 }
    requires room { bits * per ≤ 64 }
    ensures { numbers.new.items ≡ unpacked_as bits per (length numbers.old.items) words.now }
{
    for i in 0..numbers.len() {
        numbers[i] = number_at(words, i, bits, base, per);
    }
}
