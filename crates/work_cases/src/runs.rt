//! Runs of equal blocks as texts.

/// A run: its state's text, the tags of an entity on each of its blocks, and how many blocks it has.
#[derive(Clone, Copy)]
pub(crate) struct Run<'a> {
    pub(crate) state: &'a str,
    pub(crate) tags: Option<(&'a str, &'a str)>,
    pub(crate) count: usize,
}

/// The run of a text, where so many blocks are left.
pub(crate) fn run_of(text: &str, left: usize) -> Option<Run<'_>> {
    let (content, count) = counted(text, left)?;
    let (state, tags) = tagged(content)?;
    Some(Run { state, tags, count })
}

/// A run's content, and how many blocks it has.
fn counted(text: &str, left: usize) -> Option<(&str, usize)> {
    match text.split_once('*') {
        None => Some((text, 1)),
        Some((content, "")) => Some((content, left)),
        Some((content, count)) => Some((content, count.parse().ok()?)),
    }
}

/// A content's state, and the tags of its entity.
fn tagged(content: &str) -> Option<(&str, Option<(&str, &str)>)> {
    match content.split_once('{') {
        None => Some((content, None)),
        Some((state, rest)) => {
            let tags = rest.strip_suffix("}")?;
            Some((state, Some(tags.split_once('/')?)))
        }
    }
}
