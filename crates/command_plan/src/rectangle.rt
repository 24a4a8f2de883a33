//! Rectangles of chunks.

ghost use Rattle.std.specs.Prelude.{◌≡◌, ℕ, ◌≤◌, ◌&&◌, ◌⊎◌};
ghost use Rattle.command_plan.specs.Rectangles.{is_among, IsRunWithin, IsInside, IsPartOf, covers};
ghost use Rattle.command_plan.specs.declared.rectangle.ChunkGrid.{ChunkGrid};

/// How many columns of chunks a world's box has along x and along z.
#[derive(Clone, Copy, Debug)]
pub(crate) struct ChunkGrid {
    pub(crate) columns: u32,
    pub(crate) rows: u32,
}

/// Neighbouring columns of chunks, counted from the box's first: from the one up to but without the other.
#[derive(Clone, Copy, Debug)]
pub(crate) struct Run {
    pub(crate) from: u32,
    pub(crate) to: u32,
}

/// The chunks of these columns along x and along z.
#[derive(Clone, Copy, Debug)]
pub(crate) struct Rectangle {
    pub(crate) x: Run,
    pub(crate) z: Run,
}

/// The chunks of two rectangles, which may be one.
#[derive(Clone, Copy, Debug)]
pub(crate) struct ChunkSet {
    pub(crate) first: Rectangle,
    pub(crate) second: Rectangle,
}

/// The column is one of the run.
fn has(run: &Run, column: u32) -> bool
    ensures { result ≡ is_among run.now column }
{
    run.from <= column && column < run.to
}

/// The chunk in this column and row is one of the rectangle.
pub(crate) fn has_chunk(r: &Rectangle, column: u32, row: u32) -> bool
    ensures { result ≡ (is_among r.now.x column && is_among r.now.z row) }
{
    has(&r.x, column) && has(&r.z, row)
}

fn lesser(a: u32, b: u32) -> u32
    ensures first { result ≤ a }
    ensures second { result ≤ b }
    ensures one { (result ≡ a) ⊎ (result ≡ b) }
{
    if a < b {
        return a;
    }
    b
}

fn greater(a: u32, b: u32) -> u32
    ensures first { a ≤ result }
    ensures second { b ≤ result }
    ensures one { (result ≡ a) ⊎ (result ≡ b) }
{
    if a < b {
        return b;
    }
    a
}

/// The columns of both.
fn common_run(a: &Run, b: &Run) -> Run
    ensures within { (whole : ℕ) → IsRunWithin a.now whole → IsRunWithin b.now whole → IsRunWithin result whole }
    ensures exact { (column : ℕ) → is_among result column ≡ (is_among a.now column && is_among b.now column) }
{
    let from = greater(a.from, b.from);
    let end = lesser(a.to, b.to);
    Run {
        from,
        to: greater(from, end),
    }
}

/// A run that has the columns of both and goes no farther.
fn hull_run(a: &Run, b: &Run) -> Run
    ensures within { (whole : ℕ) → IsRunWithin a.now whole → IsRunWithin b.now whole → IsRunWithin result whole }
    ensures from_first { result.from ≤ a.now.from }
    ensures from_second { result.from ≤ b.now.from }
    ensures to_first { a.now.to ≤ result.to }
    ensures to_second { b.now.to ≤ result.to }
{
    Run {
        from: lesser(a.from, b.from),
        to: greater(a.to, b.to),
    }
}

/// The chunks of both.
pub(crate) fn common(a: &Rectangle, b: &Rectangle) -> Rectangle
    ensures within { (grid : ChunkGrid) → IsInside grid a.now → IsInside grid b.now → IsInside grid result }
    ensures exact { (columns chunk : ℕ) → covers columns result chunk ≡ (covers columns a.now chunk && covers columns b.now chunk) }
{
    Rectangle {
        x: common_run(&a.x, &b.x),
        z: common_run(&a.z, &b.z),
    }
}

/// A rectangle that has the chunks of both and goes no farther.
pub(crate) fn hull(a: &Rectangle, b: &Rectangle) -> Rectangle
    ensures within { (grid : ChunkGrid) → IsInside grid a.now → IsInside grid b.now → IsInside grid result }
    ensures first { IsPartOf a.now result }
    ensures second { IsPartOf b.now result }
{
    Rectangle {
        x: hull_run(&a.x, &b.x),
        z: hull_run(&a.z, &b.z),
    }
}
