use case_lines::Answer;

/// The three numbers of a text, with this sign between them.
pub fn three_of(text: &str, between: char) -> Option<[i32; 3]> {
    let (first, rest) = text.split_once(between)?;
    let (second, third) = rest.split_once(between)?;
    Some([
        first.parse::<i32>().ok()?,
        second.parse::<i32>().ok()?,
        third.parse::<i32>().ok()?,
    ])
}

/// Puts three numbers with this text between them behind an answer.
pub fn push_three(numbers: &[i32; 3], between: &str, answer: &mut Answer) {
    let [first, second, third] = *numbers;
    answer.number(first);
    answer.text(between);
    answer.number(second);
    answer.text(between);
    answer.number(third)
}
