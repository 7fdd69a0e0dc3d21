//! The words of the program.
ghost use Rattle.std.specs.Prelude.{◌≡◌, ◌↔◌, IsTrue, Any, map, slice_get};

use crate::refusal::Refusal;
use crate::request::Request;
use std::alloc::Global;
use std::convert::AsStr;
use std::env;
use std::rt::Env;

/// Which words ask for what.
pub trait Grammar {
    ghost use Rattle.std.specs.Prelude.{ℕ, List, Result, map, ⊤};
    ghost use Rattle.nv_commands.specs.declared.request.Request.{Request as AnyRequest};
    ghost use Rattle.nv_commands.specs.declared.refusal.Refusal.{Refusal as AnyRefusal};

    // what the grammar may say of words
    ghost says: { List (List ℕ) → Result AnyRequest AnyRefusal → Type 0 } = { λ _ _. ⊤ };

    /// What these words ask for. None of them begins with `-`.
    fn request<'a, S: AsStr>(alloc: Global, words: &'a [S]) -> Result<Request<'a>, Refusal>
        ensures { says (map S.text words.entry.now) result };
}

/// What these words ask for in a grammar. No request has a word that begins with `-`.
///
/// # Errors
///
/// [`Refusal::Usage`] where a word begins with `-`. Otherwise the refusal that the grammar `G` returns for the words.
pub fn request_of<'a, G: Grammar, S: AsStr>(
    alloc: Global,
    words: &'a [S],
) -> Result<Request<'a>, Refusal>
    ensures dash { Any (λ word. slice_get (S.text word) 0 ≡ Some 45) words.entry.now → result ≡ Err Refusal.Usage }
    ensures other { ¬ Any (λ word. slice_get (S.text word) 0 ≡ Some 45) words.entry.now → G.says (map S.text words.entry.now) result }
{
    if words.iter().any(|word| begins_with_dash(word.as_str())) {
        return Err(Refusal::Usage);
    }
    G::request(alloc, words)
}

// Whether a word begins with a dash.
fn begins_with_dash(word: &str) -> bool
    ensures { IsTrue result ↔ (slice_get word.now 0 ≡ Some 45) }
{
    word.as_bytes().first() == Some(&b'-')
}

/// The words after the program's name.
///
/// # Errors
///
/// [`Refusal::NoMemory`] where memory is refused. [`Refusal::Usage`] where the words cannot be read for another reason: words that are no
/// text are none that the program knows.
pub fn words(rt: &(impl Env + AllocGlobal)) -> Result<Vec<String>, Refusal> {
    let all = env::args(rt).map_err(Refusal::of_words)?;
    let words = all.skip(1).collect(rt.alloc())?;
    Ok(words)
}
