// Kinds of bytes.
ghost use Rattle.std.specs.Prelude.{◌≡◌};
ghost use Rattle.notation.specs.Grammar.{blank};
ghost use Rattle.notation.specs.Reader.{is_digit};
ghost use Rattle.scan.specs.Look.{opener, closer};

#[tactic(auto, unfolding(notation::specs::Grammar::blank))]
pub fn is_blank(b: u8) -> bool
    ensures { result ≡ blank b }
{
    matches!(b, b' ' | b'\n' | b'\r')
}

#[tactic(auto, unfolding(notation::specs::Reader::is_digit))]
pub fn is_digit(b: u8) -> bool
    ensures { result ≡ is_digit b }
{
    matches!(b, b'0'..=b'9')
}

#[tactic(auto, unfolding(crate::specs::Look::opener))]
pub fn is_opener(b: u8) -> bool
    ensures { result ≡ opener b }
{
    matches!(b, b'(' | b'[' | b'{')
}

#[tactic(auto, unfolding(crate::specs::Look::closer))]
pub fn is_closer(b: u8) -> bool
    ensures { result ≡ closer b }
{
    matches!(b, b')' | b']' | b'}')
}
