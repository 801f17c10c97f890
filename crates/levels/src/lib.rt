// The levels around a place of the text: what is kept of them, and how it changes with a byte.
//
// The innermost levels stand in a ring, each with the place of its bracket. When the ring is full, the oldest level
// leaves it and is marked. A mark stands for the levels that left the ring from less than BLOCK bytes of the text: it
// has the place of the first of them, and the level and place of the last. When the ring has run empty, the last mark
// is taken back: its level is the innermost, and one walk back, from the place of that level's bracket to the mark's
// first place, finds the others. What was closed behind that bracket is never walked over.
//
// So the time is linear. A walk back takes less than BLOCK steps. The first one from a mark is paid by the bytes that
// it walks over; a later one from the same bytes by the brackets, KEPT - BLOCK or more, that have been opened since the
// walk before it, as its levels left the ring again only then. No bracket pays for two: while a mark waits, none
// further out is walked from. A text can have more than MARKS blocks open at once, a quarter of a million bytes and
// more: then the last mark takes all further levels, and when the ring is full before a walk back has come to its first
// place, all marks are given up and each walk starts where the one before it stopped. That is linear for brackets
// nested any way in which what is closed between two open ones is short.
#![tactic(auto)]

ghost use Rattle.std.specs.Prelude.{◌≡◌, true, false, ◌≤◌, ◌<◌, length, get_or};
ghost use Rattle.notation.specs.Grammar.{blank};
ghost use Rattle.scan.specs.Look.{opener, around};
ghost use Rattle.scan.specs.Levels.{second_of, slave_of};
ghost use Rattle.levels.specs.Ring.{flag, StepsBack, slot_of, MakesRoom, Opens, Shuts, Changes, Notes};
ghost use Rattle.levels.specs.Ring.{NotesInside, Fills, KeepsAt, MarksIn, MarksLevel};

use scan::bytes;

// How many levels the ring has room for.
pub const KEPT: usize = 1024;

// The oldest level of a full ring, counted from the innermost.
const OLDEST: usize = 1023;

// How many levels outside the ring can be marked.
pub const MARKS: usize = 512;

// The levels of so many bytes have one mark.
const BLOCK: usize = 512;

// The ring of levels, the places of their brackets; the first and last places of the marks, and the levels of the last.
pub type Ring = [u8; KEPT];

pub type Places = [usize; KEPT];

pub type Marks = [usize; MARKS];

pub type Tops = [u8; MARKS];

// The innermost level stands before `end` in the ring, and `held` of them are there; the others are those around the
// place `floor`, with so many marks. `fresh`: the last byte that is no blank opens a bracket.
#[derive(Clone, Copy)]
pub struct Kept {
    pub end: usize,
    pub held: usize,
    pub fresh: bool,
    pub floor: usize,
    pub marks: usize,
}

// One byte back: brackets closed further on, a bar further on, a state's name right behind; or the level that is found.
#[derive(Clone, Copy)]
pub enum Back {
    On(usize, bool, bool),
    Found(u8),
}

// The outermost level, the whole text: 1 for a second part. Levels are numbers, since the ring has a byte for each and
// the table of modes counts on from them.
fn whole(second: bool) -> u8
    ensures { (result ≡ flag second) × (result < 2) }
{
    u8::from(second)
}

// The level that an open bracket makes.
#[tactic(auto, unfolding(scan::specs::Look::around))]
fn found(b: u8, second: bool, q: bool) -> u8
    ensures { result ≡ around b (flag second) q }
{
    let part = whole(second);
    if b == b'[' {
        4 + part
    } else if q {
        2 + part
    } else {
        6 + part
    }
}

// One byte back.
fn one_back(b: u8, depth: usize, second: bool, q: bool) -> Back
    requires { depth < 18446744073709551615 }
    ensures { StepsBack b depth second q result }
{
    if bytes::is_closer(b) {
        return Back::On(depth + 1, second, false);
    }
    if bytes::is_opener(b) {
        if depth == 0 {
            return Back::Found(found(b, second, q));
        }
        return Back::On(depth - 1, second, false);
    }
    if b == b'|' {
        if depth == 0 {
            return Back::On(depth, true, false);
        }
        return Back::On(depth, second, false);
    }
    if bytes::is_blank(b) {
        return Back::On(depth, second, q);
    }
    Back::On(depth, second, b == b'q')
}

// The place in the ring of a level, counted from the innermost.
fn slot(end: usize, j: usize) -> usize
    requires { (end < 1024) × (j < 1024) }
    ensures { (result ≡ slot_of end j) × (result < 1024) }
{
    (end + 1023 - j) % KEPT
}

pub fn innermost(ring: &Ring, end: usize) -> u8
    requires { end < 1024 }
    ensures { result ≡ get_or ring.now (slot_of end 0) 0 }
{
    ring[slot(end, 0)]
}

// Whether a level at a place joins the last of t marks.
fn joins(firsts: &Marks, t: usize, p: usize) -> bool
    requires { t ≤ 512 }
    ensures { (result ≡ true → 0 < t) × (result ≡ false → t < 512) }
{
    if t == 0 {
        return false;
    }
    if t == MARKS {
        return true;
    }
    let i = t - 1;
    let first = firsts[i];
    if p < first {
        return true;
    }
    p - first < BLOCK
}

// Marks a level, whose bracket is at a place: how many marks there are then.
fn marked(
    firsts: &mut Marks,
    lasts: &mut Marks,
    tops: &mut Tops,
    t: usize,
    p: usize,
    a: u8,
) -> usize
    requires { t ≤ 512 }
    ensures { MarksLevel p a firsts.old lasts.old tops.old t
        firsts.new lasts.new tops.new result }
{
    if joins(firsts, t, p) {
        let i = t - 1;
        lasts[i] = p;
        tops[i] = a;
        return t;
    }
    firsts[t] = p;
    lasts[t] = p;
    tops[t] = a;
    t + 1
}

// Room for a level more: the oldest is marked and goes if the ring is full.
fn with_room(
    ring: &Ring,
    places: &Places,
    firsts: &mut Marks,
    lasts: &mut Marks,
    tops: &mut Tops,
    k: Kept,
) -> Kept
    requires { (k.end < 1024) × ((k.held ≤ 1024) × (k.marks ≤ 512)) }
    ensures { MakesRoom ring.now places.now firsts.old lasts.old
        tops.old k firsts.new lasts.new tops.new result }
{
    if k.held < KEPT {
        return k;
    }
    let end = k.end;
    let next = slot(end, OLDEST - 1);
    let t = marked(firsts, lasts, tops, k.marks, places[end], ring[end]);
    Kept {
        held: OLDEST,
        floor: places[next],
        marks: t,
        ..k
    }
}

// A level is opened by the bracket at a place.
fn opened(
    ring: &mut Ring,
    places: &mut Places,
    firsts: &mut Marks,
    lasts: &mut Marks,
    tops: &mut Tops,
    k: Kept,
    at: usize,
    a: u8,
) -> Kept
    requires { (k.end < 1024) × ((k.held ≤ 1024) × (k.marks ≤ 512)) }
    ensures { Opens at a ring.old places.old firsts.old lasts.old
        tops.old k ring.new places.new firsts.new lasts.new
        tops.new result }
{
    let j = with_room(ring, places, firsts, lasts, tops, k);
    let end = j.end;
    ring[end] = a;
    places[end] = at;
    Kept {
        end: (end + 1) % KEPT,
        held: j.held + 1,
        fresh: true,
        ..j
    }
}

// The innermost level is closed.
fn closed(k: Kept) -> Kept
    requires { (k.end < 1024) × (0 < k.held) }
    ensures { Shuts k result }
{
    Kept {
        end: slot(k.end, 0),
        held: k.held - 1,
        fresh: false,
        ..k
    }
}

// The level for a second part.
fn second_of(a: u8) -> u8
    ensures { result ≡ second_of a }
{
    a / 2 * 2 + 1
}

// A bar: a second part follows in the innermost level.
fn second(ring: &mut Ring, k: Kept) -> Kept
    requires { (k.end < 1024) × (0 < k.held) }
    ensures { Changes second_of ring.old k ring.new result }
{
    let at = slot(k.end, 0);
    ring[at] = second_of(ring[at]);
    Kept { fresh: false, ..k }
}

// The level of a slave's pair instead of that of round brackets.
#[tactic(auto, unfolding(scan::specs::Levels::slave_of))]
fn slave_of(a: u8) -> u8
    ensures { result ≡ slave_of a }
{
    if a < 6 { a } else { a - 4 }
}

// A state's name: right behind an open bracket it makes the level a slave's pair.
fn named(ring: &mut Ring, k: Kept) -> Kept
    requires { (k.end < 1024) × (0 < k.held) }
    ensures { Changes slave_of ring.old k ring.new result }
{
    let at = slot(k.end, 0);
    ring[at] = slave_of(ring[at]);
    Kept { fresh: false, ..k }
}

// The levels behind one byte more that is no blank and opens no bracket.
fn inside(ring: &mut Ring, k: Kept, b: u8) -> Kept
    requires { (k.end < 1024) × ((0 < k.held) × ((blank b ≡ false) × (opener b ≡ false))) }
    ensures { NotesInside b ring.old k ring.new result }
{
    if bytes::is_closer(b) {
        return closed(k);
    }
    if b == b'|' {
        return second(ring, k);
    }
    if b != b'q' {
        return Kept { fresh: false, ..k };
    }
    if k.fresh {
        return named(ring, k);
    }
    k
}

// The levels behind one byte more, which stands at a place.
pub fn noted(
    ring: &mut Ring,
    places: &mut Places,
    firsts: &mut Marks,
    lasts: &mut Marks,
    tops: &mut Tops,
    k: Kept,
    at: usize,
    b: u8,
) -> Kept
    requires { (k.end < 1024) × ((0 < k.held) × ((k.held ≤ 1024) × (k.marks ≤ 512))) }
    ensures { Notes at b ring.old places.old firsts.old lasts.old
        tops.old k ring.new places.new firsts.new lasts.new
        tops.new result }
{
    if bytes::is_blank(b) {
        return k;
    }
    if bytes::is_opener(b) {
        return opened(
            ring,
            places,
            firsts,
            lasts,
            tops,
            k,
            at,
            found(b, false, false),
        );
    }
    inside(ring, k, b)
}

// What a walk back has put into the ring: how many levels, and the place around which the others stand.
#[derive(Clone, Copy)]
struct Filled {
    held: usize,
    floor: usize,
}

// Whether the ring is full, or the walk back has come to the bracket where it stops.
fn is_done(held: usize, i: usize, stop: usize) -> bool
    requires { held ≤ 1024 }
    ensures { result ≡ false → held < 1024 }
{
    held == KEPT || i == stop
}

// Fills the ring further out, behind the levels that are taken, by a walk back from a place around which the next ones
// stand; no further than to a bracket at the place `stop`.
fn refill(
    text: &[u8],
    from: usize,
    stop: usize,
    ring: &mut Ring,
    places: &mut Places,
    end: usize,
    taken: usize,
) -> Filled
    requires { (from ≤ length text.now) × ((end < 1024) × (taken < 1024)) }
    ensures { Fills text.now from end taken ring.old places.old
        ring.new places.new result.held result.floor }
{
    let mut held = taken;
    let mut depth: usize = 0;
    let mut second = false;
    let mut q = false;
    for i in (0..from).rev() {
        let w = one_back(text[i], depth, second, q);
        match w {
            Back::On(n, s, p) => {
                depth = n;
                second = s;
                q = p;
            }
            Back::Found(a) => {
                let at = slot(end, held);
                ring[at] = a;
                places[at] = i;
                held += 1;
                if is_done(held, i, stop) {
                    return Filled {
                        held: held,
                        floor: i,
                    };
                }
                depth = 0;
                second = false;
                q = false;
            }
        }
    }
    let at = slot(end, held);
    ring[at] = whole(second);
    places[at] = 0;
    Filled {
        held: held + 1,
        floor: 0,
    }
}

// The marks that are left when the ring is filled from the last of them, down to its first place or not.
fn marks_left(t: usize, first: usize, floor: usize) -> usize
    ensures { 0 < result → (result ≡ t) × (floor ≡ first) }
{
    if floor == first { t } else { 0 }
}

// The same levels, those of the last mark in the ring, which was empty.
fn recalled(
    text: &[u8],
    at: usize,
    ring: &mut Ring,
    places: &mut Places,
    firsts: &Marks,
    lasts: &Marks,
    tops: &Tops,
    k: Kept,
) -> Kept
    requires { KeepsAt text.now at ring.old places.old k
        × (MarksIn text.now firsts.now lasts.now tops.now k × ((k.held ≡ 0) × (0 < k.marks))) }
    ensures { KeepsAt text.now at ring.new places.new result
        × (MarksIn text.now firsts.now lasts.now tops.now result
        × (0 < result.held)) }
{
    let t = k.marks - 1;
    let first = firsts[t];
    let last = lasts[t];
    let end = k.end;
    let s = slot(end, 0);
    ring[s] = tops[t];
    places[s] = last;
    if last == first {
        return Kept {
            held: 1,
            floor: last,
            marks: t,
            ..k
        };
    }
    let f = refill(text, last, first, ring, places, end, 1);
    Kept {
        held: f.held,
        floor: f.floor,
        marks: marks_left(t, first, f.floor),
        ..k
    }
}

// The same levels, at least one of them in the ring.
pub fn refilled(
    text: &[u8],
    at: usize,
    ring: &mut Ring,
    places: &mut Places,
    firsts: &Marks,
    lasts: &Marks,
    tops: &Tops,
    k: Kept,
) -> Kept
    requires { KeepsAt text.now at ring.old places.old k
        × MarksIn text.now firsts.now lasts.now tops.now k }
    ensures { KeepsAt text.now at ring.new places.new result
        × (MarksIn text.now firsts.now lasts.now tops.now result
        × (0 < result.held)) }
{
    if k.held > 0 {
        return k;
    }
    if k.marks > 0 {
        return recalled(text, at, ring, places, firsts, lasts, tops, k);
    }
    let f = refill(text, k.floor, 0, ring, places, k.end, 0);
    Kept {
        held: f.held,
        floor: f.floor,
        marks: 0,
        ..k
    }
}
