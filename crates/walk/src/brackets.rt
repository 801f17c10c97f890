// The end of what stands between brackets, found by counting brackets of all three kinds, byte by byte.
ghost use Rattle.std.specs.Prelude.{◌≡◌, ◌≤◌, ◌<◌, length};
ghost use Rattle.walk.specs.Brackets.{opens?, closes?, ends?, opened, ClosesAt};

fn opens(b: u8) -> bool
    ensures { result ≡ opens? b }
{
    (b == b'(') | ((b == b'[') | (b == b'{'))
}

fn closes(b: u8) -> bool
    ensures { result ≡ closes? b }
{
    (b == b')') | ((b == b']') | (b == b'}'))
}

// A byte closes what is not opened.
fn ends(level: usize, b: u8) -> bool
    ensures { result ≡ ends? level b }
{
    (level == 0) & closes(b)
}

// How many brackets are open behind a byte.
fn opened(level: usize, b: u8) -> usize
    requires { level < 18446744073709551615 }
    ensures { result ≡ opened level b }
{
    if opens(b) {
        return level + 1;
    }
    if closes(b) {
        if level == 0 {
            return 0;
        }
        return level - 1;
    }
    level
}

// The place of the first bracket from a place on that closes what is not opened there; the end of the text if there
// is none.
pub fn close_at(text: &[u8], at: usize) -> usize
    requires { at ≤ length text.now }
    ensures { ClosesAt text.now at result }
{
    let mut level: usize = 0;
    for i in at..text.len() {
        let b = text[i];
        if ends(level, b) {
            return i;
        }
        level = opened(level, b);
    }
    text.len()
}
