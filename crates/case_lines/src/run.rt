use crate::answer::Answer;
use crate::parts::parts_of;
use std::alloc::Global;
use std::io::{self, BufRead, BufReader, Write};

/// What the inputs of a program of cases are answered.
pub trait Cases {
    /// Puts the answer behind what is there. None where there is no such kind, where the input is none of the
    /// kind's, and where memory runs out.
    fn answer(&self, alloc: Global, kind: &str, input: &str, answer: &mut Answer) -> Option<()>;
}

/// Reads lines to the end, and prints each case whose answer is another as `LINE BUT ANSWER`, and then `done N`
/// with the number of cases.
pub fn run_cases<R: Input + Print + AllocGlobal, C: Cases>(rt: &R, cases: &C) -> io::Result<()> {
    let alloc = rt.alloc();
    let mut count = 0_u64;
    for line in BufReader::new(alloc, rt.reader())?.lines(alloc) {
        let line = line?;
        if is_case(line.as_str()) {
            count = count.saturating_add(1);
            try_case(rt, cases, line.as_str())?;
        }
    }
    println!(rt; "done {count}")
}

/// Whether a line is a case: it isn't empty, and doesn't begin with `#`.
pub fn is_case(line: &str) -> bool {
    !line.is_empty() && !line.starts_with('#')
}

/// Prints the case if its answer is another.
fn try_case<R: Print + AllocGlobal, C: Cases>(rt: &R, cases: &C, line: &str) -> io::Result<()> {
    let mut found = Answer::new(rt.alloc());
    let answered = answer_line(rt.alloc(), cases, line, &mut found);
    tell_case(rt, line, answered, &found)
}

fn answer_line<C: Cases>(alloc: Global, cases: &C, line: &str, found: &mut Answer) -> Option<()> {
    let parts = parts_of(line)?;
    cases.answer(alloc, parts.kind, parts.input, found)
}

/// Prints a case as `LINE BUT ANSWER` if it wants another answer than this one. A case that isn't answered, or has no
/// parts, is printed with `no answer`.
pub fn tell_case<R: Print>(
    rt: &R,
    line: &str,
    answered: Option<()>,
    answer: &Answer,
) -> io::Result<()> {
    match (parts_of(line), answered, answer.whole()) {
        (Some(parts), Some(()), Some(bytes)) if parts.answer.as_bytes() == bytes => Ok(()),
        (Some(_), Some(()), Some(bytes)) => tell(rt, line, bytes),
        _ => tell(rt, line, b"no answer"),
    }
}

fn tell<R: Print>(rt: &R, line: &str, answer: &[u8]) -> io::Result<()> {
    let mut out = io::writer(rt);
    out.write_all(line.as_bytes())?;
    out.write_all(b" BUT ")?;
    out.write_all(answer)?;
    out.write_all(b"\n")
}
