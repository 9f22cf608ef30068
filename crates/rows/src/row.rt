// A caller's list with a count: the first `count` items are the row. The list is lent, since rows allocate nothing,
// so the count stands beside it.
ghost use Rattle.std.specs.Prelude.{◌≤◌, length};

mod ask;
mod fill;

#[derive(Drop)]
pub struct Row<'a, T> {
    items: &'a mut [T],
    count: usize,
    ghost fits: { count ≤ length items.now },
}
