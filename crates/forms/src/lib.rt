// Which form of chart stands at a place of a text that spells one, and a hiding set, which may be left out. What is
// answered is right if a chart is there; the functions are safe on every text.
#![tactic(auto)]

ghost use Rattle.std.specs.Prelude.{◌≤◌, length};
ghost use Rattle.forms.specs.Forms.{FormAt, OptionalAt};

// The forms of a chart as a part of a composition; a composition stands in round brackets there.
#[derive(Clone, Copy)]
pub enum Form {
    Sequential,
    Decomposed,
    Hidden,
    Bracketed,
}

// The form of the part that stands at a place, by its first byte, and of two that begin with a bracket by what stands
// behind it.
pub fn form_at(text: &[u8], at: usize) -> Form
    requires { at ≤ length text.now }
    ensures { FormAt text.now at result }
{
    let b = tokens::peek(text, at);
    if b == b'D' {
        return Form::Decomposed;
    }
    if b == b'(' {
        if lists::begins_chart(text, at) {
            return Form::Sequential;
        }
        return Form::Bracketed;
    }
    Form::Hidden
}

// A hiding set, which may be left out.
pub fn optional_set_at(text: &[u8], at: usize) -> fields::SignalSet
    requires { at ≤ length text.now }
    ensures { OptionalAt text.now at result }
{
    if tokens::peek(text, at) == b'{' {
        return fields::set(text, at);
    }
    fields::SignalSet {
        mask: 0,
        bad: false,
        next: at,
    }
}
