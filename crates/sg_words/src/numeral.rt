// Whole numbers in words.
ghost use Rattle.std.specs.Prelude.{◌≡◌, ◌≤◌, IfSome};
ghost use Rattle.std.specs.List.{list_all};
ghost use Rattle.std.specs.Char.{is_ascii_digit};
ghost use Rattle.sg_words.specs.Numeral.{word_number as number_from_to};

/// The number that a word spells, where it is from `least` to `most`: one decimal digit or more, and
/// nothing else. Leading zeros may appear, a sign may not. In time linear in the word, and without
/// allocating.
pub fn number_in(word: &str, least: u64, most: u64) -> Option<u64>
    ensures value { result ≡ number_from_to least most word.now }
    ensures least { IfSome result (λ n. least ≤ n) }
    ensures most { IfSome result (λ n. n ≤ most) }
{
    if !is_all_digits(word) {
        return None;
    }
    match word.parse::<u64>() {
        Ok(value) if least <= value && value <= most => Some(value),
        _ => None,
    }
}

// Whether each byte of the word is a decimal digit.
fn is_all_digits(word: &str) -> bool
    ensures { result ≡ list_all is_ascii_digit word.now }
{
    word.as_bytes().iter().all(|byte| byte.is_ascii_digit())
}
