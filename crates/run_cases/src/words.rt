//! The words that a call is given.

use std::alloc::Global;

/// The words of a text. `-` stands for the usual words, and the names of the scripts behind them; `- 7 2 15` has another
/// seed, count of workers and depth.
pub fn run_words(alloc: Global, text: &str, scripts: &str) -> Option<Vec<String>> {
    let mut words = Vec::new(alloc);
    match text.strip_prefix('-') {
        None => push_words(alloc, text, &mut words)?,
        Some("") => push_usual(alloc, "0 1 15", scripts, &mut words)?,
        Some(numbers) => push_usual(alloc, numbers, scripts, &mut words)?,
    }
    Some(words)
}

/// The words of a text, of which `-` stands for these.
pub fn words_of(alloc: Global, text: &str, usual: &str) -> Option<Vec<String>> {
    let mut words = Vec::new(alloc);
    let text = if text == "-" { usual } else { text };
    push_words(alloc, text, &mut words)?;
    Some(words)
}

fn push_usual(alloc: Global, numbers: &str, scripts: &str, words: &mut Vec<String>) -> Option<()> {
    push_words(alloc, "run in.schem out.schem", words)?;
    push_words(alloc, numbers, words)?;
    for script in scripts.split(" ; ") {
        if let Some((name, _text)) = script.split_once(':') {
            push_word(alloc, name, words)?;
        }
    }
    Some(())
}

fn push_words(alloc: Global, text: &str, words: &mut Vec<String>) -> Option<()> {
    for word in text.split(' ') {
        if !word.is_empty() {
            push_word(alloc, word, words)?;
        }
    }
    Some(())
}

/// Puts a word, in which `~` stands for a blank. `""` stands for the empty word.
fn push_word(alloc: Global, word: &str, words: &mut Vec<String>) -> Option<()> {
    let mut owned = String::new(alloc);
    if word != "\"\"" {
        push_letters(word, &mut owned)?;
    }
    words.push(owned).ok()
}

fn push_letters(word: &str, owned: &mut String) -> Option<()> {
    for letter in word.chars() {
        owned.push(if letter == '~' { ' ' } else { letter }).ok()?;
    }
    Some(())
}
