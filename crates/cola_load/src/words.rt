//! The words of a text: the parts between single spaces.
ghost use Rattle.std.specs.Prelude.{◌≡◌, ◌∷◌, ℕ, nat_eq, position, option_map, option_copied, Some, None};
ghost use Rattle.cola_spec.specs.Command.{words_of};
ghost use Rattle.cola_line.specs.Words.{words_left, only_word, only_two};

/// The place of the first space.
fn space(text: &[u8]) -> Option<usize>
    ensures { result ≡ position (λ byte. nat_eq byte 32) text.now }
{
    text.iter().position(|byte| *byte == b' ')
}

/// The first word of a text, and the text after the space that ends it, where one does.
pub fn cut(text: &[u8]) -> (&[u8], Option<&[u8]>)
    ensures { words_of text.now ≡ result.0.now ∷ words_left (option_copied result.1) }
{
    match space(text) {
        Some(at) => (&text[..at], Some(&text[at + 1..])),
        None => (text, None),
    }
}

/// The one word that is left, where there is just one.
pub fn one(left: Option<&[u8]>) -> Option<&[u8]>
    ensures { option_copied result ≡ only_word (words_left (option_copied left.entry)) }
{
    let Some(text) = left else {
        return None;
    };
    match cut(text) {
        (word, None) => Some(word),
        (_, Some(_)) => None,
    }
}

/// The two words that are left, where there are just two.
pub fn two(left: Option<&[u8]>) -> Option<(&[u8], &[u8])>
    ensures { option_map (λ words. (words.0.now, words.1.now)) result
        ≡ only_two (words_left (option_copied left.entry)) }
{
    let Some(text) = left else {
        return None;
    };
    let (first, rest) = cut(text);
    match one(rest) {
        Some(second) => Some((first, second)),
        None => None,
    }
}
