/// The parts of a line that is a case.
#[derive(Clone, Copy)]
pub struct Parts<'a> {
    /// What is asked.
    pub kind: &'a str,
    /// What it is asked of. It may be empty.
    pub input: &'a str,
    /// The answer that the line wants.
    pub answer: &'a str,
}

/// The parts of a line, `KIND INPUT => ANSWER` or `NAME: KIND INPUT => ANSWER`. A name plays no role. The last
/// ` => ` parts the answer from the rest. None where there is none.
pub fn parts_of(line: &str) -> Option<Parts<'_>> {
    let (asked, answer) = line.rsplit_once(" => ")?;
    let (first, rest) = first_word(asked);
    let (kind, input) = if first.ends_with(':') {
        first_word(rest)
    } else {
        (first, rest)
    };
    Some(Parts {
        kind,
        input,
        answer,
    })
}

/// The part before the first blank, and the part behind it.
fn first_word(text: &str) -> (&str, &str) {
    match text.split_once(' ') {
        Some(parts) => parts,
        None => (text, ""),
    }
}
