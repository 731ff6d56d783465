// Marks and links by place.
ghost use Rattle.std.specs.Prelude.{◌≡◌, ◌+◌, ◌<◌, ◌≤◌, ◌++◌, ◌∷◌, [], None, slice_set, vec_len, vec_capacity};
ghost use Rattle.ps_chains.specs.Marks.{mark_at, set_at};

use crate::small::{Link, Mark};

/// The digest at this place, and none where no row stands there.
pub fn read(marks: &[Mark], place: usize) -> Option<u64>
    ensures { result ≡ mark_at marks.now place }
{
    match marks.get(place) {
        Some(mark) => mark.get(),
        None => None,
    }
}

/// Takes the mark of a place away, if there is the place.
pub fn clear(marks: &mut Vec<Mark>, place: usize)
    ensures marks { marks.new.items ≡ slice_set marks.old.items place None }
    ensures room { vec_capacity marks.new ≡ vec_capacity marks.old }
{
    if place < marks.len() {
        marks[place] = Mark::none();
    }
}

/// The link at this place, which leads nowhere where no row stands there.
pub fn link_at(links: &[Link], place: usize) -> Link
    ensures { result ≡ mark_at links.now place }
{
    match links.get(place) {
        Some(link) => *link,
        None => Link::none(),
    }
}

/// Writes a link at a place, if there is one.
pub fn set(links: &mut Vec<Link>, place: Link, link: Link)
    ensures links { links.new.items ≡ set_at place link links.old.items }
    ensures len { vec_len links.new ≡ vec_len links.old }
    ensures room { vec_capacity links.new ≡ vec_capacity links.old }
{
    if let Some(at) = place.get() {
        if at < links.len() {
            links[at] = link;
        }
    }
}

/// Adds an item at the end, where there is room.
pub fn add<T: Drop>(items: &mut Vec<T>, item: T)
    requires room { vec_len items.old < vec_capacity items.old }
    ensures items { items.new.items ≡ items.old.items ++ item ∷ [] }
    ensures len { vec_len items.new ≡ vec_len items.old + 1 }
    ensures room { vec_capacity items.old ≤ vec_capacity items.new }
{
    let _ = items.push(item);
}
