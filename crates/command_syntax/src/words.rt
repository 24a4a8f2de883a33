//! The words of a line.
ghost use Rattle.std.specs.Prelude.{◌≡◌, ◌≤◌, ◌++◌, [], ◌∷◌, List, None, length, map, OnOk, IfOk};
ghost use Rattle.command_syntax.specs.Words.{Mark, Gap, Part, mark_of, words_of, AreShort};
ghost use Rattle.command_syntax.specs.Cursor.{words_with};
ghost use Rattle.block_state.specs.Read.{Gives};
ghost use Rattle.command_syntax.specs.Read.{IsStop};

use crate::fault::LineFault;
use crate::line::is_blank;
use crate::stop::Stop;
use block_state::split_once;
use edit_terms::Name;
use memory::Memory;
use std::alloc::Global;

/// The words of a line of at most 1,048,576 bytes, without their quotes.
#[tactic(auto, using(crate::proofs::ShortWords::words_short))]
pub(crate) fn words_of(alloc: Global, line: &[u8]) -> Result<Vec<Name>, Stop>
    requires { length line.now ≤ 1048576 }
    ensures read { Gives IsStop (λ words. words.items) (words_of line.now) result }
    ensures short { IfOk result (λ words. AreShort words.items) }
{
    let words = read_words(alloc, line)?;
    Ok(words)
}

fn read_words(alloc: Global, line: &[u8]) -> Result<Vec<Name>, Stop>
    ensures { Gives IsStop (λ words. words.items) (words_of line.now) result }
{
    let mut words = WordsRead {
        done: Vec::new(alloc),
        word: None,
    };
    let mut rest = line;
    while let Some((outside, behind)) = split_once(rest, b'"') {
        words.put_outside(alloc, outside)?;
        let Some((inside, behind)) = split_once(behind, b'"') else {
            return Err(Stop::Fault(LineFault::OpenQuote));
        };
        words.put_part(alloc, inside)?;
        rest = behind;
    }
    words.put_outside(alloc, rest)?;
    Ok(words.finish()?)
}

/// The words that have ended, and the one that has begun.
#[derive(Drop)]
pub(crate) struct WordsRead {
    pub(crate) done: Vec<Name>,
    pub(crate) word: Option<Vec<u8>>,
}

impl WordsRead {
    /// Reads a text outside quotes.
    fn put_outside(&mut self, alloc: Global, text: &[u8]) -> Result<(), Memory>
        ensures { OnOk result ((marks : List Mark) → words_with self.old (map mark_of text.now ++ marks) ≡ words_with self.new marks) }
    {
        for b in text {
            self.put_byte(alloc, *b)?;
        }
        Ok(())
    }

    /// Reads a byte outside quotes.
    fn put_byte(&mut self, alloc: Global, b: u8) -> Result<(), Memory>
        ensures { OnOk result ((marks : List Mark) → words_with self.old (mark_of b ∷ marks) ≡ words_with self.new marks) }
    {
        if is_blank(b) {
            self.end_word()?;
            return Ok(());
        }
        self.put_part(alloc, &[b])?;
        Ok(())
    }

    /// Reads a part of a word.
    #[tactic(auto, using(crate::proofs::Quoting::parts_join))]
    fn put_part(&mut self, alloc: Global, text: &[u8]) -> Result<(), Memory>
        ensures { OnOk result ((marks : List Mark) → words_with self.old (Part text.now ∷ marks) ≡ words_with self.new marks) }
    {
        match self.word.take() {
            Some(mut word) => {
                word.extend_from_slice(text)?;
                self.word = Some(word);
                Ok(())
            }
            None => {
                self.word = Some(Vec::from_slice(alloc, text)?);
                Ok(())
            }
        }
    }

    /// Ends the word that has begun, if one has.
    #[tactic(auto, using(crate::proofs::Quoting::word_ends))]
    fn end_word(&mut self) -> Result<(), Memory>
        ensures words { OnOk result ((marks : List Mark) → words_with self.old (Gap ∷ marks) ≡ words_with self.new marks) }
        ensures ended { OnOk result (self.new.word ≡ None) }
    {
        let Some(word) = self.word.take() else {
            return Ok(());
        };
        self.done.push(Name::from_vec(word))?;
        Ok(())
    }

    /// All words, at the end of a line.
    fn finish(mut self) -> Result<Vec<Name>, Memory>
        ensures { IfOk result (λ words. words.items ≡ words_with self []) }
    {
        self.end_word()?;
        Ok(self.done)
    }
}
