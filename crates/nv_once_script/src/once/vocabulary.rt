//! The words that a line may begin with.
ghost use Rattle.std.specs.Prelude.{◌≡◌, map};
ghost use Rattle.std.specs.Map.{lookup};
ghost use Rattle.std.specs.Str.{bytes_eq};
ghost use Rattle.nv_once_script.specs.OnceVocabulary.{keyword_of};

use crate::once::word::Word;

/// What a line is, by its first word.
#[derive(Clone, Copy, Debug, PartialEq, Eq)]
pub enum Keyword {
    Memory,
    Blocks,
    Store,
    Fill,
    Paint,
    Cmd,
    Dump,
    Block,
    /// a line of another subcommand, with so many words after the first
    Foreign(usize),
}

impl Keyword {
    ghost use Rattle.nv_once_script.specs.OnceVocabulary.{arguments_of};

    /// How many words come after the first.
    pub fn arguments(self) -> usize
        ensures { result ≡ arguments_of self }
    {
        match self {
            Keyword::Memory | Keyword::Blocks | Keyword::Cmd | Keyword::Block => 1,
            Keyword::Store | Keyword::Paint | Keyword::Dump => 2,
            Keyword::Fill => 3,
            Keyword::Foreign(arguments) => arguments,
        }
    }
}

/// Every first word of every subcommand.
const VOCABULARY: [(&[u8], Keyword); 34] = [
    (b"memory", Keyword::Memory),
    (b"blocks", Keyword::Blocks),
    (b"store", Keyword::Store),
    (b"fill", Keyword::Fill),
    (b"paint", Keyword::Paint),
    (b"cmd", Keyword::Cmd),
    (b"dump", Keyword::Dump),
    (b"block", Keyword::Block),
    (b"host", Keyword::Foreign(1)),
    (b"mediator", Keyword::Foreign(1)),
    (b"disk", Keyword::Foreign(1)),
    (b"lanes", Keyword::Foreign(1)),
    (b"guest", Keyword::Foreign(6)),
    (b"extent", Keyword::Foreign(3)),
    (b"map", Keyword::Foreign(4)),
    (b"descriptors", Keyword::Foreign(2)),
    (b"load", Keyword::Foreign(3)),
    (b"regread", Keyword::Foreign(2)),
    (b"regwrite", Keyword::Foreign(3)),
    (b"bell", Keyword::Foreign(3)),
    (b"admin", Keyword::Foreign(1)),
    (b"take", Keyword::Foreign(3)),
    (b"list", Keyword::Foreign(4)),
    (b"submit", Keyword::Foreign(2)),
    (b"giveup", Keyword::Foreign(2)),
    (b"devtake", Keyword::Foreign(1)),
    (b"devmove", Keyword::Foreign(3)),
    (b"devpost", Keyword::Foreign(2)),
    (b"devfail", Keyword::Foreign(5)),
    (b"keep", Keyword::Foreign(1)),
    (b"reap", Keyword::Foreign(1)),
    (b"post", Keyword::Foreign(2)),
    (b"await", Keyword::Foreign(3)),
    (b"awaitreg", Keyword::Foreign(3)),
];

/// What a line is that begins with this word, or `None` for a word that no subcommand knows.
pub fn look_up(word: Word<'_>) -> Option<Keyword>
    ensures { result ≡ keyword_of word.entry }
{
    keyword_in(&VOCABULARY, word.text())
}

/// What the first row with this word says.
pub fn keyword_in<K: Copy>(rows: &[(&[u8], K)], word: &[u8]) -> Option<K>
    ensures { result ≡ lookup (λ name. bytes_eq name word.now) (map (λ row. (row.0.now, row.1)) rows.now) }
{
    let (_, keyword) = rows.iter().find(|row| is_same(row.0, word))?;
    Some(*keyword)
}

// Whether two words are the same. Most differ in their first byte, which spares examining the others.
#[inline(always)]
fn is_same(one: &[u8], other: &[u8]) -> bool
    ensures { result ≡ bytes_eq one.now other.now }
{
    match (one.first(), other.first()) {
        (Some(a), Some(b)) if *a != *b => false,
        _ => one == other,
    }
}
