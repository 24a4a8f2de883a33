//! The lines of a script's text.
ghost use Rattle.std.specs.Prelude.{◌≡◌, ◌≤◌, ◌+◌, ◌∷◌, [], not, length, MatchOption, IfSome};
ghost use Rattle.std.specs.List.{find};
ghost use Rattle.command_syntax.specs.Text.{is_blank};
ghost use Rattle.command_syntax.specs.Lines.{without_return, lines_from, is_skipped, significant};
ghost use Rattle.command_syntax.specs.Cursor.{line_now};

use block_state::split_once;
use std::marker::Model;

/// A line without its end, and its number in the script.
#[derive(Clone, Copy)]
pub(crate) struct NumberedLine<'a> {
    pub(crate) number: u32,
    pub(crate) text: &'a [u8],
}

/// The lines of a text that are still to come. Contracts see their list.
#[derive(Drop)]
pub(crate) struct Lines<'a> {
    number: u32,
    rest: Option<&'a [u8]>,
}

impl<'a> Model for Lines<'a> {
    ghost use Rattle.std.specs.Prelude.{ℕ, List};
    ghost use Rattle.command_syntax.specs.Cursor.{lines_left, IsPlaced};

    ghost Value = { List (ℕ × List ℕ) };

    ghost view = { λ l. lines_left l.number l.rest };

    ghost invariant = { λ l. IsPlaced l.number l.rest };
}

impl<'a> Lines<'a> {
    /// The lines of a whole text, numbered from 1.
    pub(crate) fn new(text: &'a [u8]) -> Lines<'a>
        requires { length text.now ≤ 1048576 }
        ensures { result ≡ lines_from 1 text.now }
    {
        Lines {
            number: 1,
            rest: Some(text),
        }
    }

    /// The next line that isn't skipped. None where none is left.
    pub(crate) fn next_significant(&mut self) -> Option<NumberedLine<'a>>
        ensures cases { MatchOption result (significant self.old ≡ []) (λ l. significant self.old ≡ line_now l ∷ significant self.new) }
        ensures within { IfSome result (λ l. length l.text.now ≤ 1048576) }
    {
        while let Some(line) = self.next() {
            if !is_skipped(line.text) {
                return Some(line);
            }
        }
        None
    }

    /// The next line. None where none is left.
    fn next(&mut self) -> Option<NumberedLine<'a>>
        ensures cases { MatchOption result (self.old ≡ []) (λ l. self.old ≡ line_now l ∷ self.new) }
        ensures within { IfSome result (λ l. length l.text.now ≤ 1048576) }
    {
        let text = self.rest?;
        let number = self.number;
        let Some((line, rest)) = split_once(text, b'\n') else {
            self.rest = None;
            return Some(NumberedLine {
                number,
                text: without_return(text),
            });
        };
        self.rest = Some(rest);
        self.number = number + 1;
        Some(NumberedLine {
            number,
            text: without_return(line),
        })
    }
}

/// A line without the carriage return at its end, if it has one.
fn without_return(line: &[u8]) -> &[u8]
    ensures value { result.now ≡ without_return line.now }
    ensures within { length result.now ≤ length line.now }
{
    match line {
        [text @ .., b'\r'] => text,
        _ => line,
    }
}

/// Whether the line has blanks alone, or is a comment.
fn is_skipped(line: &[u8]) -> bool
    ensures { result ≡ is_skipped line.now }
{
    match first_nonblank(line) {
        None => true,
        Some(b) => b == b'#',
    }
}

/// The first byte that isn't a blank.
fn first_nonblank(line: &[u8]) -> Option<u8>
    ensures { result ≡ find (λ b. not (is_blank b)) line.now }
{
    line.iter().copied().find(|b| !is_blank(*b))
}

/// A space or a tab.
pub(crate) fn is_blank(b: u8) -> bool
    ensures { result ≡ is_blank b }
{
    b == b' ' || b == b'\t'
}
