// The trailer, and what it says: refusals 2 to 4, and the shape of the body.
ghost use Rattle.std.specs.Prelude.{◌≡◌, ◌||◌, ltb};
ghost use Rattle.layout.specs.Body.{size_of};
ghost use Rattle.meaning.specs.File.{shape_of};
ghost use Rattle.meaning.specs.Check.{edition?, counts?, differ, first_of};
ghost use Rattle.checks.specs.Refusals.{told};
ghost use Rattle.checks.specs.Trailer.{trailer_tests};

use crate::limits;
use crate::refusal::Refusal;
use layout::body::Shape;
use layout::record::Trailer;

// How many records of each kind the trailer says there are, and the edition.
pub fn shape(t: Trailer) -> Shape
    ensures { result ≡ shape_of t }
{
    Shape {
        charts: t.charts as usize,
        transitions: t.transitions as usize,
        slaves: t.slaves as usize,
        nodes: t.nodes as usize,
        edition: t.edition as usize,
    }
}

// 2: neither of the two editions.
fn other_edition(t: Trailer) -> bool
    ensures { result ≡ edition? t }
{
    (t.edition != limits::FIRST_EDITION) & (t.edition != limits::STAY_EDITION)
}

// 3: a count out of its limits.
fn bad_counts(t: Trailer) -> bool
    ensures { result ≡ counts? t }
{
    ((t.charts == 0) | (t.charts > limits::MOST_CHARTS))
        | (t.slaves > limits::MOST_SLAVES)
        | ((t.nodes == 0) | (t.nodes > limits::MOST_NODES))
        | (t.transitions > limits::MOST_TRANSITIONS)
}

// 4: the distance differs from the body size, or the file, whose trailer begins at `end`, has fewer bytes before it.
fn bad_distance(t: Trailer, end: usize) -> bool
    ensures { result ≡ (differ t.distance (size_of (shape_of t)) || ltb end t.distance) }
{
    let d = t.distance as usize;
    (d != layout::body::size(shape(t))) | (d > end)
}

// 2 to 4, of the trailer at `end`.
pub fn test(t: Trailer, end: usize) -> Result<(), Refusal>
    ensures { told result ≡ first_of (trailer_tests t end) }
{
    if other_edition(t) {
        return Err(Refusal::OtherEdition);
    }
    if bad_counts(t) {
        return Err(Refusal::BadCounts);
    }
    if bad_distance(t, end) {
        return Err(Refusal::BadDistance);
    }
    Ok(())
}
