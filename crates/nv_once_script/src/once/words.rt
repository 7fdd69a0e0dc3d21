//! The words of a line.
ghost use Rattle.std.specs.Prelude.{◌≡◌, ◌<◌, ◌∷◌, [], length, MatchResult};
ghost use Rattle.std.specs.Iterator.{YieldsFirst, item_count};
ghost use Rattle.nv_once_script.specs.OnceVocabulary.{count_check};
ghost use Rattle.nv_once_script.specs.declared.once.fault.FaultKind.TheVariants.{MissingWord};
ghost use Rattle.nv_once_script.specs.OnceWords.{words_of};

use crate::once::fault::FaultKind;
use crate::once::word::Word;
use std::marker::Model;

/// The words that are left of a line. A contract sees them as a list of words.
#[derive(Drop)]
pub struct Words<'a> {
    text: &'a [u8],
}

impl<'a> Model for Words<'a> {
    ghost use Rattle.std.specs.Prelude.{List, ℕ};
    ghost use Rattle.nv_once_script.specs.OnceWords.{words_of};

    ghost Value = { List (List ℕ) };

    ghost view = { λ words. words_of words.text.now };
}

impl<'a> Words<'a> {
    /// The words of a line: what is between its spaces, up to a comment.
    pub fn of(line: &'a [u8]) -> Self
        ensures { result ≡ words_of line.now }
    {
        Words { text: line }
    }

    /// Whether so many words are left.
    ///
    /// # Errors
    ///
    /// [`FaultKind::MissingWord`] where fewer than `wanted` words are left. [`FaultKind::TooManyWords`] where more are left.
    pub fn check_count(&self, wanted: usize) -> Result<(), FaultKind>
        ensures { result ≡ count_check (length self.now) wanted }
    {
        let mut words = Words { text: self.text };
        for _found in 0..wanted {
            let Some(_) = words.next() else {
                return Err(FaultKind::MissingWord);
            };
        }
        match words.next() {
            None => Ok(()),
            Some(_) => Err(FaultKind::TooManyWords),
        }
    }

    /// Takes the next word, which is a name as a rule: as `next`, but for what is seen of its number in passing.
    #[inline(always)]
    pub fn next_name(&mut self) -> Option<Word<'a>>
        ensures steps { YieldsFirst (λ words. words) self.old result self.new }
    {
        let (word, rest) = Word::first_name(self.text)?;
        self.text = rest;
        Some(word)
    }

    // Takes the next word, or says that it is missing.
    #[inline(always)]
    fn wanted(&mut self) -> Result<Word<'a>, FaultKind>
        ensures { MatchResult result (λ word. self.old ≡ word ∷ self.new) (λ fault. (self.old ≡ []) × (fault ≡ MissingWord)) }
    {
        self.next().ok_or(FaultKind::MissingWord)
    }

    /// The word that is left, where it is one.
    ///
    /// # Errors
    ///
    /// [`FaultKind::MissingWord`] where no word is left. [`FaultKind::TooManyWords`] where more than one is left.
    #[inline(always)]
    pub fn one(mut self) -> Result<Word<'a>, FaultKind>
        ensures { MatchResult result (λ word. self.entry ≡ word ∷ []) (λ fault. count_check (length self.entry) 1 ≡ Err fault) }
    {
        let word = self.wanted()?;
        if self.next().is_some() {
            return Err(FaultKind::TooManyWords);
        }
        Ok(word)
    }

    /// The words that are left, where they are two.
    ///
    /// # Errors
    ///
    /// [`FaultKind::MissingWord`] where fewer than two words are left. [`FaultKind::TooManyWords`] where more are left.
    #[inline(always)]
    pub fn two(mut self) -> Result<(Word<'a>, Word<'a>), FaultKind>
        ensures { MatchResult result (λ words. self.entry ≡ words.0 ∷ words.1 ∷ [])
            (λ fault. count_check (length self.entry) 2 ≡ Err fault) }
    {
        let first = self.wanted()?;
        let second = self.one()?;
        Ok((first, second))
    }

    /// The words that are left, where they are three.
    ///
    /// # Errors
    ///
    /// [`FaultKind::MissingWord`] where fewer than three words are left. [`FaultKind::TooManyWords`] where more are left.
    #[inline(always)]
    pub fn three(mut self) -> Result<(Word<'a>, Word<'a>, Word<'a>), FaultKind>
        ensures { MatchResult result (λ words. self.entry ≡ words.0 ∷ words.1 ∷ words.2 ∷ [])
            (λ fault. count_check (length self.entry) 3 ≡ Err fault) }
    {
        let first = self.wanted()?;
        let (second, third) = self.two()?;
        Ok((first, second, third))
    }

    /// The words that are left, where they are four.
    ///
    /// # Errors
    ///
    /// [`FaultKind::MissingWord`] where fewer than four words are left. [`FaultKind::TooManyWords`] where more are left.
    #[inline(always)]
    pub fn four(mut self) -> Result<(Word<'a>, Word<'a>, Word<'a>, Word<'a>), FaultKind>
        ensures { MatchResult result (λ words. self.entry ≡ words.0 ∷ words.1 ∷ words.2 ∷ words.3 ∷ [])
            (λ fault. count_check (length self.entry) 4 ≡ Err fault) }
    {
        let first = self.wanted()?;
        let (second, third, fourth) = self.three()?;
        Ok((first, second, third, fourth))
    }

    /// The words that are left, where they are five.
    ///
    /// # Errors
    ///
    /// [`FaultKind::MissingWord`] where fewer than five words are left. [`FaultKind::TooManyWords`] where more are left.
    #[inline(always)]
    pub fn five(mut self) -> Result<(Word<'a>, Word<'a>, Word<'a>, Word<'a>, Word<'a>), FaultKind>
        ensures { MatchResult result
            (λ words. self.entry ≡ words.0 ∷ words.1 ∷ words.2 ∷ words.3 ∷ words.4 ∷ [])
            (λ fault. count_check (length self.entry) 5 ≡ Err fault) }
    {
        let first = self.wanted()?;
        let (second, third, fourth, fifth) = self.four()?;
        Ok((first, second, third, fourth, fifth))
    }

    /// Takes the next word, which is there.
    pub fn next_word(&mut self) -> Word<'a>
        requires { 0 < length self.old }
        ensures { self.old ≡ result ∷ self.new }
    {
        self.next().unwrap()
    }
}

impl<'a> Iterator for Words<'a> {
    type Item = Word<'a>;

    ghost next_gives = { YieldsFirst (λ words. words) };

    ghost remaining = { item_count (λ words. words) };

    #[inline(always)]
    fn next(&mut self) -> Option<Word<'a>> {
        let (word, rest) = Word::first(self.text)?;
        self.text = rest;
        Some(word)
    }
}
