//! Which command a line's first word begins.
ghost use Rattle.std.specs.Prelude.{◌≡◌, Option, Some, None};
ghost use Rattle.command_syntax.specs.Command.{placing_verb, filling_verb, shape_verb, copying_verb, session_verb, verb_of};

/// A command's word. A hollow shape has one of its own.
#[derive(Clone, Copy, Debug, PartialEq, Eq)]
pub(crate) enum Verb {
    Pos1,
    Pos2,
    Place,
    Sel,
    Block,
    Set,
    Walls,
    Faces,
    Replace,
    Sphere,
    HollowSphere,
    Cyl,
    HollowCyl,
    Stack,
    Move,
    Copy,
    Cut,
    Paste,
    Rotate,
    Flip,
    Gmask,
    Undo,
    Redo,
}

/// The command that this word begins. None where it begins none.
pub(crate) fn verb_of(word: &[u8]) -> Option<Verb>
    ensures { result ≡ verb_of word.now }
{
    if let Some(verb) = placing_verb(word) {
        return Some(verb);
    }
    if let Some(verb) = filling_verb(word) {
        return Some(verb);
    }
    if let Some(verb) = shape_verb(word) {
        return Some(verb);
    }
    if let Some(verb) = copying_verb(word) {
        return Some(verb);
    }
    session_verb(word)
}

/// The selection's positions and shape, the place, and a single block.
fn placing_verb(word: &[u8]) -> Option<Verb>
    ensures { result ≡ placing_verb word.now }
{
    if word == b"//pos1".as_slice() {
        return Some(Verb::Pos1);
    }
    if word == b"//pos2".as_slice() {
        return Some(Verb::Pos2);
    }
    if word == b"//sel".as_slice() {
        return Some(Verb::Sel);
    }
    if word == b"at".as_slice() {
        return Some(Verb::Place);
    }
    if word == b"block".as_slice() {
        return Some(Verb::Block);
    }
    None
}

/// What fills the selection.
fn filling_verb(word: &[u8]) -> Option<Verb>
    ensures { result ≡ filling_verb word.now }
{
    if word == b"//set".as_slice() {
        return Some(Verb::Set);
    }
    if word == b"//walls".as_slice() {
        return Some(Verb::Walls);
    }
    if word == b"//faces".as_slice() {
        return Some(Verb::Faces);
    }
    if word == b"//replace".as_slice() {
        return Some(Verb::Replace);
    }
    None
}

fn shape_verb(word: &[u8]) -> Option<Verb>
    ensures { result ≡ shape_verb word.now }
{
    if word == b"//sphere".as_slice() {
        return Some(Verb::Sphere);
    }
    if word == b"//hsphere".as_slice() {
        return Some(Verb::HollowSphere);
    }
    if word == b"//cyl".as_slice() {
        return Some(Verb::Cyl);
    }
    if word == b"//hcyl".as_slice() {
        return Some(Verb::HollowCyl);
    }
    None
}

/// What repeats or moves the selection, or copies it to the clipboard and back.
fn copying_verb(word: &[u8]) -> Option<Verb>
    ensures { result ≡ copying_verb word.now }
{
    if word == b"//stack".as_slice() {
        return Some(Verb::Stack);
    }
    if word == b"//move".as_slice() {
        return Some(Verb::Move);
    }
    if word == b"//copy".as_slice() {
        return Some(Verb::Copy);
    }
    if word == b"//cut".as_slice() {
        return Some(Verb::Cut);
    }
    if word == b"//paste".as_slice() {
        return Some(Verb::Paste);
    }
    None
}

/// What turns the clipboard, and what concerns all edits.
fn session_verb(word: &[u8]) -> Option<Verb>
    ensures { result ≡ session_verb word.now }
{
    if word == b"//rotate".as_slice() {
        return Some(Verb::Rotate);
    }
    if word == b"//flip".as_slice() {
        return Some(Verb::Flip);
    }
    if word == b"//gmask".as_slice() {
        return Some(Verb::Gmask);
    }
    if word == b"//undo".as_slice() {
        return Some(Verb::Undo);
    }
    if word == b"//redo".as_slice() {
        return Some(Verb::Redo);
    }
    None
}
