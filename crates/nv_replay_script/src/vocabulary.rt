//! The words that a line may begin with.
ghost use Rattle.std.specs.Prelude.{◌≡◌, ◌∷◌, ℕ, List, IfSome, Some};
ghost use Rattle.nv_once_script.specs.OnceWords.{words_of};
ghost use Rattle.nv_replay_script.specs.ReplayVocabulary.{keyword_of};

use nv_once_script::once::vocabulary::keyword_in;
use nv_once_script::once::word::Word;

/// A size of the set-up.
#[derive(Clone, Copy, Debug, PartialEq, Eq)]
pub enum Size {
    Host,
    Mediator,
    Disk,
    Lanes,
}

/// A kind of guest line: an act of the guest that its first number names.
#[derive(Clone, Copy, Debug, PartialEq, Eq)]
pub enum ActKind {
    Store,
    Fill,
    Load,
    RegRead,
    RegWrite,
    Bell,
}

impl ActKind {
    ghost use Rattle.nv_replay_script.specs.ReplayVocabulary.{act_arguments};

    /// How many words follow the number of its guest.
    pub fn arguments(self) -> usize
        ensures { result ≡ act_arguments self }
    {
        match self {
            ActKind::RegRead => 1,
            ActKind::Store | ActKind::Load | ActKind::RegWrite | ActKind::Bell => 2,
            ActKind::Fill => 3,
        }
    }
}

/// A kind of event, as its line names it.
#[derive(Clone, Copy, Debug, PartialEq, Eq)]
pub enum EventKind {
    Act(ActKind),
    Admin,
    Take,
    List,
    Submit,
    GiveUp,
    DevTake,
    DevMove,
    DevPost,
    DevFail,
    Keep,
    Reap,
    Post,
}

impl EventKind {
    ghost use Rattle.nv_replay_script.specs.ReplayVocabulary.{event_arguments};

    /// How many words follow the first.
    pub fn arguments(self) -> usize
        ensures { result ≡ event_arguments self }
    {
        match self {
            EventKind::Act(kind) => 1 + kind.arguments(),
            EventKind::Admin | EventKind::DevTake | EventKind::Keep | EventKind::Reap => 1,
            EventKind::Submit | EventKind::GiveUp | EventKind::DevPost | EventKind::Post => 2,
            EventKind::Take | EventKind::DevMove => 3,
            EventKind::List => 4,
            EventKind::DevFail => 5,
        }
    }
}

/// A kind of set-up line, as its first word names it.
#[derive(Clone, Copy, Debug, PartialEq, Eq)]
pub enum SetUpKind {
    Size(Size),
    Guest,
    Extent,
    Map,
    Descriptors,
}

/// What a line is, by its first word.
#[derive(Clone, Copy, Debug, PartialEq, Eq)]
pub enum Keyword {
    SetUp(SetUpKind),
    Event(EventKind),
    /// `await`, a line of `run`
    Await,
    /// `awaitreg`, a line of `run`
    AwaitReg,
    /// a line of `once`, with this many words after the first
    Foreign(usize),
}

/// How many words follow the first of a line of `run` alone.
pub const AWAIT_ARGUMENTS: usize = 3;

/// Every first word of every subcommand.
const VOCABULARY: [(&[u8], Keyword); 34] = [
    (b"devmove", Keyword::Event(EventKind::DevMove)),
    (b"devtake", Keyword::Event(EventKind::DevTake)),
    (b"devpost", Keyword::Event(EventKind::DevPost)),
    (b"reap", Keyword::Event(EventKind::Reap)),
    (b"post", Keyword::Event(EventKind::Post)),
    (b"bell", Keyword::Event(EventKind::Act(ActKind::Bell))),
    (b"store", Keyword::Event(EventKind::Act(ActKind::Store))),
    (b"take", Keyword::Event(EventKind::Take)),
    (b"submit", Keyword::Event(EventKind::Submit)),
    (b"list", Keyword::Event(EventKind::List)),
    (b"load", Keyword::Event(EventKind::Act(ActKind::Load))),
    (b"regread", Keyword::Event(EventKind::Act(ActKind::RegRead))),
    (
        b"regwrite",
        Keyword::Event(EventKind::Act(ActKind::RegWrite)),
    ),
    (b"admin", Keyword::Event(EventKind::Admin)),
    (b"fill", Keyword::Event(EventKind::Act(ActKind::Fill))),
    (b"giveup", Keyword::Event(EventKind::GiveUp)),
    (b"devfail", Keyword::Event(EventKind::DevFail)),
    (b"keep", Keyword::Event(EventKind::Keep)),
    (b"host", Keyword::SetUp(SetUpKind::Size(Size::Host))),
    (b"mediator", Keyword::SetUp(SetUpKind::Size(Size::Mediator))),
    (b"disk", Keyword::SetUp(SetUpKind::Size(Size::Disk))),
    (b"lanes", Keyword::SetUp(SetUpKind::Size(Size::Lanes))),
    (b"guest", Keyword::SetUp(SetUpKind::Guest)),
    (b"extent", Keyword::SetUp(SetUpKind::Extent)),
    (b"map", Keyword::SetUp(SetUpKind::Map)),
    (b"descriptors", Keyword::SetUp(SetUpKind::Descriptors)),
    (b"await", Keyword::Await),
    (b"awaitreg", Keyword::AwaitReg),
    (b"memory", Keyword::Foreign(1)),
    (b"blocks", Keyword::Foreign(1)),
    (b"paint", Keyword::Foreign(2)),
    (b"cmd", Keyword::Foreign(1)),
    (b"dump", Keyword::Foreign(2)),
    (b"block", Keyword::Foreign(1)),
];

/// What a line is that begins with this word, or `None` for a word that no subcommand knows.
#[inline(always)]
pub fn look_up(word: Word<'_>) -> Option<Keyword>
    ensures { result ≡ keyword_of word.entry }
{
    let word = word.text();
    let (name, keyword) = likely(word);
    if word == name {
        return Some(keyword);
    }
    look_up_any(word)
}

/// What a line is that begins with the word of an event, and what follows that word; `None` for a line that has to be examined otherwise. Nearly
/// all lines are identified in this way, with no search for the end of their first word.
#[inline(always)]
pub(crate) fn leading(line: &[u8]) -> Option<(Keyword, &[u8])>
    ensures { IfSome result (λ found. (first : List ℕ) × (words_of line.now ≡ first ∷ words_of found.1.now) × (keyword_of first ≡ Some found.0)) }
{
    let (name, keyword) = likely(line);
    let behind = line.strip_prefix(name)?;
    match behind.first() {
        Some(byte) if *byte == b' ' => Some((keyword, behind)),
        _ => None,
    }
}

// The word of an event that this one is likely to be, by its first letters, and what its line is. Nearly all lines of a script are identified in
// this way, by a comparison.
#[inline(always)]
fn likely(word: &[u8]) -> (&'static [u8], Keyword)
    ensures { keyword_of result.0.now ≡ Some result.1 }
{
    match word {
        [b'a', ..] => (b"admin", Keyword::Event(EventKind::Admin)),
        [b'b', ..] => (b"bell", Keyword::Event(EventKind::Act(ActKind::Bell))),
        [b'd', _, _, b't', ..] => (b"devtake", Keyword::Event(EventKind::DevTake)),
        [b'd', _, _, b'p', ..] => (b"devpost", Keyword::Event(EventKind::DevPost)),
        [b'd', ..] => (b"devmove", Keyword::Event(EventKind::DevMove)),
        [b'l', b'i', ..] => (b"list", Keyword::Event(EventKind::List)),
        [b'l', ..] => (b"load", Keyword::Event(EventKind::Act(ActKind::Load))),
        [b'p', ..] => (b"post", Keyword::Event(EventKind::Post)),
        [b'r', _, b'a', ..] => (b"reap", Keyword::Event(EventKind::Reap)),
        [b'r', _, _, b'w', ..] => (
            b"regwrite",
            Keyword::Event(EventKind::Act(ActKind::RegWrite)),
        ),
        [b'r', ..] => (b"regread", Keyword::Event(EventKind::Act(ActKind::RegRead))),
        [b's', b'u', ..] => (b"submit", Keyword::Event(EventKind::Submit)),
        [b't', ..] => (b"take", Keyword::Event(EventKind::Take)),
        _ => (b"store", Keyword::Event(EventKind::Act(ActKind::Store))),
    }
}

// The same of any word.
#[inline(never)]
fn look_up_any(word: &[u8]) -> Option<Keyword>
    ensures { result ≡ keyword_of word.now }
{
    keyword_in(&VOCABULARY, word)
}
