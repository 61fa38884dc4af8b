//! Vectors: a column for each author, and the holes of each column.
ghost use Rattle.std.specs.Prelude.{◌≡◌, ◌==◌, ◌&&◌, not, nat_le, IfSome, IsSomeAnd};
ghost use Rattle.mr_concise.specs.Column.{hole_has, IsColumn};
ghost use Rattle.mr_concise.specs.Vector.{IsVectorFrom};
ghost use Rattle.mr_wire.specs.Parts.{hole_at, vector_at};
ghost use Rattle.mr_wire.specs.Reading.{Gives, Finds};
ghost use Rattle.mr_wire.specs.inner.Watch.{FindsHoles, FindsColumn, FindsColumns, FindsVector, seen_with, either_seen, name_of_place};

use crate::input::Input;
use crate::keep::{keep, room};
use mr_concise::{AuthorColumn, Column, ConciseVector, Hole, MAX_HOLES};
use mr_version::{Author, Version};
use std::alloc::Global;

/// The bytes of a hole: its first and its last counter.
const HOLE_BYTES: usize = 8;

/// The fewest bytes of a column: an author, a counter, and the count of no holes.
const COLUMN_BYTES: usize = 8;

/// A version as two numbers, so that there are some that no vector has.
#[derive(Clone, Copy)]
pub(crate) struct Place {
    author: u16,
    counter: u32,
}

impl Place {
    const NOWHERE: Place = Place {
        author: 0,
        counter: 0,
    };

    pub(crate) fn of(version: Version) -> Place
        ensures { name_of_place result ≡ version }
    {
        Place {
            author: version.author().id(),
            counter: version.counter(),
        }
    }
}

/// Two versions of which a reader of a vector tells whether the vector has them.
#[derive(Clone, Copy)]
pub(crate) struct Watch {
    pub(crate) version: Place,
    pub(crate) item: Place,
}

/// Two counters of which a reader of holes tells whether a hole has them.
#[derive(Clone, Copy)]
struct Counters {
    version: u32,
    item: u32,
}

/// Whether they are there.
#[derive(Clone, Copy)]
pub(crate) struct Seen {
    pub(crate) version: bool,
    pub(crate) item: bool,
}

/// What is told of a vector while it is read.
#[derive(Clone, Copy)]
pub(crate) struct Told {
    pub(crate) seen: Seen,
    pub(crate) is_empty: bool,
}

/// What is told of a column while it is read.
#[derive(Clone, Copy)]
struct Head {
    author: u16,
    seen: Seen,
}

impl Seen {
    const NEITHER: Seen = Seen {
        version: false,
        item: false,
    };

    /// What one of the two has seen.
    fn or(self, other: Seen) -> Seen
        ensures { result ≡ either_seen self other }
    {
        Seen {
            version: self.version || other.version,
            item: self.item || other.item,
        }
    }

    /// The same with one hole more.
    fn with_hole(self, hole: Hole, watched: Counters) -> Seen
        ensures { result ≡ seen_with self hole watched }
    {
        Seen {
            version: self.version || is_in(hole, watched.version),
            item: self.item || is_in(hole, watched.item),
        }
    }
}

fn is_in(hole: Hole, counter: u32) -> bool
    ensures { result ≡ hole_has hole counter }
{
    hole.first <= counter && counter <= hole.last
}

fn hole(input: &mut Input<'_>, upto: u32, above: u32) -> Option<Hole>
    ensures { Gives (hole_at upto above) input.old result input.new }
{
    let first = input.u32()?;
    let last = input.u32()?;
    if above < first && first <= last && last < upto {
        Some(Hole { first, last })
    } else {
        None
    }
}

/// So many holes, and whether one of them has the counters.
fn holes(
    input: &mut Input<'_>,
    memory: Option<Global>,
    upto: u32,
    count: u16,
    watched: Counters,
) -> Option<(Option<Vec<Hole>>, Seen)>
    ensures { FindsHoles upto count watched input.old result input.new }
{
    let most = input.len() / HOLE_BYTES;
    let mut holes = room(memory, most.min(usize::from(count)));
    let mut above = 0;
    let mut seen = Seen::NEITHER;
    for _ in 0..count {
        let hole = hole(input, upto, above)?;
        above = hole.last + 1;
        seen = seen.with_hole(hole, watched);
        keep(&mut holes, Some(hole));
    }
    Some((holes, seen))
}

/// Whether the column has the place, where `in_hole` tells of its counter.
fn is_at(place: Place, author: Author, upto: u32, in_hole: bool) -> bool
    ensures { result ≡ ((author == place.author) && ((nat_le 1 place.counter && nat_le place.counter upto) && not in_hole)) }
{
    author.id() == place.author && 1 <= place.counter && place.counter <= upto && !in_hole
}

/// The column, where its holes are kept.
fn column_with(author: Author, upto: u32, holes: Option<Vec<Hole>>) -> Option<AuthorColumn>
    requires { IfSome holes (λ v. IsColumn (record { upto = upto; holes = v.items })) }
    ensures { IfSome result (λ x. IsSomeAnd holes (λ v. x ≡ record { author = author; column = record { upto = upto; holes = v.items } })) }
{
    let column = Column::new(upto, holes?);
    Some(AuthorColumn { author, column })
}

/// A column of an author with this id or a higher one.
fn column(
    input: &mut Input<'_>,
    memory: Option<Global>,
    low: u16,
    watch: Watch,
) -> Option<(Option<AuthorColumn>, Head)>
    ensures { FindsColumn low watch input.old result input.new }
{
    let author = input.author()?;
    if author.id() < low {
        return None;
    }
    let upto = input.counter()?;
    let count = input.u16()?;
    if usize::from(count) > MAX_HOLES {
        return None;
    }
    let counters = Counters {
        version: watch.version.counter,
        item: watch.item.counter,
    };
    let (holes, hits) = holes(input, memory, upto, count, counters)?;
    let seen = Seen {
        version: is_at(watch.version, author, upto, hits.version),
        item: is_at(watch.item, author, upto, hits.item),
    };
    let head = Head {
        author: author.id(),
        seen,
    };
    Some((column_with(author, upto, holes), head))
}

/// So many columns by rising author, and whether they have what is watched.
fn columns(
    input: &mut Input<'_>,
    memory: Option<Global>,
    count: u16,
    watch: Watch,
) -> Option<(Option<Vec<AuthorColumn>>, Seen)>
    ensures { FindsColumns count watch input.old result input.new }
{
    let most = input.len() / COLUMN_BYTES;
    let mut columns = room(memory, most.min(usize::from(count)));
    let mut low = 0;
    let mut seen = Seen::NEITHER;
    for _ in 0..count {
        let (column, head) = column(input, memory, low, watch)?;
        low = head.author + 1;
        seen = seen.or(head.seen);
        keep(&mut columns, column);
    }
    Some((columns, seen))
}

/// The vector, where its columns are kept.
fn vector_with(memory: Option<Global>, columns: Option<Vec<AuthorColumn>>) -> Option<ConciseVector>
    requires { IfSome columns (λ v. IsVectorFrom 0 v.items) }
    ensures { IfSome result (λ vector. IsSomeAnd columns (λ v. vector ≡ v.items)) }
{
    Some(ConciseVector::from_columns(memory?, columns?))
}

/// A vector, and whether it has what is watched.
pub(crate) fn watched_vector(
    input: &mut Input<'_>,
    memory: Option<Global>,
    watch: Watch,
) -> Option<(Option<ConciseVector>, Told)>
    ensures { FindsVector watch input.old result input.new }
{
    let count = input.u16()?;
    let (columns, seen) = columns(input, memory, count, watch)?;
    let told = Told {
        seen,
        is_empty: count == 0,
    };
    Some((vector_with(memory, columns), told))
}

/// A vector.
pub(crate) fn vector(input: &mut Input<'_>, memory: Option<Global>) -> Option<Option<ConciseVector>>
    ensures { Finds (λ v. v) vector_at input.old result input.new }
{
    let nothing = Watch {
        version: Place::NOWHERE,
        item: Place::NOWHERE,
    };
    let (vector, _) = watched_vector(input, memory, nothing)?;
    Some(vector)
}
