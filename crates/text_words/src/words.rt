// The words that every reader takes from the front of a line: any one, a fixed one, or none.
ghost use Rattle.std.specs.Prelude.{◌≡◌, drop};
ghost use Rattle.std.specs.Str.{bytes_eq};
ghost use Rattle.text_words.specs.Reading.{Takes, TakesBy, end_or, fixed_or, word_or};

use crate::Words;

/// Whether a word is this one.
pub fn is_word(word: &[u8], text: &str) -> bool
    ensures { result ≡ bytes_eq word.now text.now }
{
    word == text.as_bytes()
}

impl<'a> Words<'a> {
    /// The next word, or this fault where no word is left. The words behind it are left.
    pub fn word_or<E: Drop>(&mut self, fault: E) -> Result<&'a [u8], E>
        ensures takes { TakesBy (λ word. word.now) self.new result (word_or fault self.old) }
        ensures left { self.new ≡ drop 1 self.old }
    {
        match self.next_word() {
            None => Err(fault),
            Some(word) => Ok(word),
        }
    }

    /// Passes a word that is fixed, or gives this fault where the next word is another, or no word is left.
    /// The words behind it are left, behind another word too.
    #[tactic(auto, unfolding(crate::specs::Reading::fixed_or))]
    pub fn fixed_or<E: Drop>(&mut self, text: &str, fault: E) -> Result<(), E>
        ensures takes { Takes self.new result (fixed_or fault text.now self.old) }
        ensures left { self.new ≡ drop 1 self.old }
    {
        match self.next_word() {
            None => Err(fault),
            Some(word) => {
                if is_word(word, text) {
                    Ok(())
                } else {
                    Err(fault)
                }
            }
        }
    }

    /// Gives this fault where a word is left. The words behind it are left.
    pub fn end_or<E: Drop>(&mut self, fault: E) -> Result<(), E>
        ensures takes { Takes self.new result (end_or fault self.old) }
        ensures left { self.new ≡ drop 1 self.old }
    {
        match self.next_word() {
            None => Ok(()),
            Some(_) => Err(fault),
        }
    }
}
