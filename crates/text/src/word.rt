// Words of the text, compared.
ghost use Rattle.std.specs.Prelude.{◌≡◌};
ghost use Rattle.text.specs.Word.{same, kind_of};

// What a line asks for: a start, a send or an event.
#[derive(Clone, Copy, Debug, PartialEq, Eq)]
pub enum Kind {
    Start,
    Sent,
    Event,
}

// Whether two texts are the same. `==`, with what it says as the definitions say it.
pub fn same_text(a: &[u8], b: &[u8]) -> bool
    ensures { result ≡ same a.now b.now }
{
    a == b
}

impl Kind {
    // The kind that a line's first field names.
    #[tactic(auto, unfolding(crate::specs::Text::bytes))]
    pub(crate) fn named(s: &[u8]) -> Option<Kind>
        ensures { result ≡ kind_of s.now }
    {
        if same_text(s, b"start") {
            Some(Kind::Start)
        } else if same_text(s, b"sent") {
            Some(Kind::Sent)
        } else if same_text(s, b"event") {
            Some(Kind::Event)
        } else {
            None
        }
    }
}
