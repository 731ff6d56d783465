// What a stanza asks for.
ghost use Rattle.std.specs.Prelude.{◌≡◌};
ghost use Rattle.ps_gen.specs.Dealt.{kind_of as kind_by, type_of};

/// What is asked of a node.
#[derive(Clone, Copy, Debug, PartialEq, Eq)]
pub enum Kind {
    Create,
    Publish,
    Subscribe,
    Items,
    Unsubscribe,
    Retract,
    Delete,
}

// What each eighth number asks for.
const KINDS: [Kind; 8] = [
    Kind::Create,
    Kind::Publish,
    Kind::Publish,
    Kind::Subscribe,
    Kind::Items,
    Kind::Unsubscribe,
    Kind::Retract,
    Kind::Delete,
];

/// What the number drawn asks for.
pub(crate) fn kind_of(drawn: u64) -> Kind
    ensures { result ≡ kind_by drawn }
{
    KINDS[(drawn % 8) as usize]
}

impl Kind {
    /// The type of the stanza: to ask for items is to get, and all else to set.
    pub(crate) fn stanza_type(self) -> &'static str
        ensures { result.now ≡ type_of self }
    {
        match self {
            Kind::Items => "get",
            Kind::Create
            | Kind::Publish
            | Kind::Subscribe
            | Kind::Unsubscribe
            | Kind::Retract
            | Kind::Delete => "set",
        }
    }
}
