// The five records of a chart file, read from bytes and written to them. A reader takes the place of the record's first
// byte.
ghost use Rattle.std.specs.Prelude.{◌≡◌, ◌+◌, ◌≤◌, length, drop};
ghost use Rattle.std.proofs.lemmas.List.Edits.{sets};
ghost use Rattle.layout.specs.Record.{trailer_of, head_of, transition_of, slave_of, node_of};
ghost use Rattle.layout.specs.Record.{trailer_bytes, head_bytes, transition_bytes, slave_bytes, node_bytes};
ghost use Rattle.layout.specs.Record.{with_edition};
ghost use Rattle.layout.specs.Kind.{byte_of, Decodes};

// The last 12 bytes of a file.
#[derive(Clone, Copy)]
pub struct Trailer {
    pub distance: u32,
    pub charts: u8,
    pub slaves: u8,
    pub nodes: u8,
    pub edition: u8,
    pub transitions: u16,
}

// The 24 bytes of a chart: all of it but its transitions, of which it has the number.
#[derive(Clone, Copy)]
pub struct Head {
    pub states: u8,
    pub initial: u8,
    pub transitions: u8,
    pub feedback: u64,
    pub extra: u64,
}

#[derive(Clone, Copy)]
pub struct Transition {
    pub from: u8,
    pub to: u8,
    pub needed: u64,
    pub barred: u64,
    pub action: u64,
}

// Node `node` decomposes state `state` of the master `chart`.
#[derive(Clone, Copy)]
pub struct Slave {
    pub chart: u8,
    pub state: u8,
    pub node: u8,
}

// The kinds of a node (RULES 2.6), under the byte that says each: one holds chart a; one composes nodes a and b, with
// the feedback x; and one hides node a, without x in its input and y in its output.
#[derive(Clone, Copy, Debug, PartialEq, Eq)]
pub enum Kind {
    Holds = 0,
    Composes = 1,
    Hides = 2,
}

// A byte that says no kind, for which a file is refused (RULES 3.2, 9).
#[derive(Clone, Copy, Debug, PartialEq, Eq)]
pub struct NoKind(pub u8);

impl TryFrom<u8> for Kind {
    type Error = NoKind;

    ghost try_from_gives = { Decodes };

    fn try_from(byte: u8) -> Result<Self, NoKind> {
        match byte {
            0 => Ok(Kind::Holds),
            1 => Ok(Kind::Composes),
            2 => Ok(Kind::Hides),
            _ => Err(NoKind(byte)),
        }
    }
}

impl Kind {
    // The kind that a byte says, of a node that is not refused.
    pub fn of(byte: u8) -> Kind
        requires { byte ≤ 2 }
        ensures { byte_of result ≡ byte }
    {
        match byte {
            0 => Kind::Holds,
            1 => Kind::Composes,
            2 => Kind::Hides,
            _ => unreachable!(),
        }
    }
}

// As it stands in a file, where the first byte may be none of the kinds.
#[derive(Clone, Copy)]
pub struct Node {
    pub kind: u8,
    pub a: u8,
    pub b: u8,
    pub x: u64,
    pub y: u64,
}

pub fn read_trailer(s: &[u8], at: usize) -> Trailer
    requires { at + 12 ≤ length s.now }
    ensures { result ≡ trailer_of (drop at s.now) }
{
    Trailer {
        distance: crate::number::le32(s, at),
        charts: s[at + 4],
        slaves: s[at + 5],
        nodes: s[at + 6],
        edition: s[at + 7],
        transitions: crate::number::le16(s, at + 8),
    }
}

pub fn read_head(s: &[u8], at: usize) -> Head
    requires { at + 24 ≤ length s.now }
    ensures { result ≡ head_of (drop at s.now) }
{
    Head {
        states: s[at],
        initial: s[at + 1],
        transitions: s[at + 2],
        feedback: crate::number::le64(s, at + 8),
        extra: crate::number::le64(s, at + 16),
    }
}

pub fn read_transition(s: &[u8], at: usize) -> Transition
    requires { at + 28 ≤ length s.now }
    ensures { result ≡ transition_of (drop at s.now) }
{
    Transition {
        from: s[at],
        to: s[at + 1],
        needed: crate::number::le64(s, at + 4),
        barred: crate::number::le64(s, at + 12),
        action: crate::number::le64(s, at + 20),
    }
}

pub fn read_slave(s: &[u8], at: usize) -> Slave
    requires { at + 4 ≤ length s.now }
    ensures { result ≡ slave_of (drop at s.now) }
{
    Slave {
        chart: s[at],
        state: s[at + 1],
        node: s[at + 2],
    }
}

pub fn read_node(s: &[u8], at: usize) -> Node
    requires { at + 20 ≤ length s.now }
    ensures { result ≡ node_of (drop at s.now) }
{
    Node {
        kind: s[at],
        a: s[at + 1],
        b: s[at + 2],
        x: crate::number::le64(s, at + 4),
        y: crate::number::le64(s, at + 12),
    }
}

pub fn write_trailer(s: &mut [u8], at: usize, r: Trailer)
    requires { at + 12 ≤ length s.old }
    ensures { s.new ≡ sets s.old at (trailer_bytes r) }
{
    crate::number::put32(s, at, r.distance);
    s[at + 4] = r.charts;
    s[at + 5] = r.slaves;
    s[at + 6] = r.nodes;
    s[at + 7] = r.edition;
    crate::number::put16(s, at + 8, r.transitions);
    crate::number::put16(s, at + 10, 0);
}

// A file under another edition (RULES 7.1): one byte of its trailer is replaced.
pub fn write_edition(file: &mut [u8], edition: u8)
    requires { 12 ≤ length file.old }
    ensures { file.new ≡ with_edition edition file.old }
{
    let end = file.len() - crate::limits::TRAILER_BYTES;
    file[end + 7] = edition;
}

pub fn write_head(s: &mut [u8], at: usize, r: Head)
    requires { at + 24 ≤ length s.old }
    ensures { s.new ≡ sets s.old at (head_bytes r) }
{
    s[at] = r.states;
    s[at + 1] = r.initial;
    s[at + 2] = r.transitions;
    s[at + 3] = 0;
    crate::number::put32(s, at + 4, 0);
    crate::number::put64(s, at + 8, r.feedback);
    crate::number::put64(s, at + 16, r.extra);
}

pub fn write_transition(s: &mut [u8], at: usize, r: Transition)
    requires { at + 28 ≤ length s.old }
    ensures { s.new ≡ sets s.old at (transition_bytes r) }
{
    s[at] = r.from;
    s[at + 1] = r.to;
    crate::number::put16(s, at + 2, 0);
    crate::number::put64(s, at + 4, r.needed);
    crate::number::put64(s, at + 12, r.barred);
    crate::number::put64(s, at + 20, r.action);
}

pub fn write_slave(s: &mut [u8], at: usize, r: Slave)
    requires { at + 4 ≤ length s.old }
    ensures { s.new ≡ sets s.old at (slave_bytes r) }
{
    s[at] = r.chart;
    s[at + 1] = r.state;
    s[at + 2] = r.node;
    s[at + 3] = 0;
}

pub fn write_node(s: &mut [u8], at: usize, r: Node)
    requires { at + 20 ≤ length s.old }
    ensures { s.new ≡ sets s.old at (node_bytes r) }
{
    s[at] = r.kind;
    s[at + 1] = r.a;
    s[at + 2] = r.b;
    s[at + 3] = 0;
    crate::number::put64(s, at + 4, r.x);
    crate::number::put64(s, at + 12, r.y);
}
