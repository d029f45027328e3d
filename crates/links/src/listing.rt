//! Lists of links, in which no link stands twice.
ghost use Rattle.std.specs.Prelude.{◌≡◌, is_ok, not, if◌then◌else◌};
ghost use Rattle.fixed.specs.Items.{items};
ghost use Rattle.semantics.specs.Plans.{has_link, with_link};
ghost use Rattle.links.specs.Parts.{is_full};

use fixed::{Fixed, Full};
use semantics::Link;

/// Whether the link stands in the list.
pub fn is_linked(l: Link, links: &[Link]) -> bool
    ensures { result ≡ has_link l links.now }
{
    links.contains(&l)
}

/// Whether the list has room for the link. A link that stands there needs none.
pub fn has_room<const N: usize>(links: &Fixed<Link, N>, l: Link) -> bool
    ensures { result ≡ not (is_full N (items links.now) l) }
{
    links.len() < N || is_linked(l, links.as_slice())
}

/// Ends the list with the link, unless it stands there. A full list takes no further link, and stays as it is.
pub fn try_join<const N: usize>(links: &mut Fixed<Link, N>, l: Link) -> Result<(), Full>
    ensures room { is_ok result ≡ not (is_full N (items links.old) l) }
    ensures after { items links.new ≡ (if is_ok result then with_link (items links.old) l else items links.old) }
{
    if is_linked(l, links.as_slice()) {
        return Ok(());
    }
    links.push(l)
}

/// Ends the list with the link, unless it stands there or the list has no room for it.
pub fn join<const N: usize>(links: &mut Fixed<Link, N>, l: Link)
    ensures { items links.new ≡ (if is_full N (items links.old) l then items links.old else with_link (items links.old) l) }
{
    let _ = try_join(links, l);
}
