// The texts of tags.

ghost use Rattle.std.specs.Prelude.{◌≡◌, ◌∷◌, [], MatchOption, IfOk};
ghost use Rattle.rapid_model.specs.Tags.{AreTags};
ghost use Rattle.rapid_endpoint.specs.Texts.{between_commas, tags_from};

use crate::{ParseError, Tags};

impl Tags {
    /// The tags that a text such as `db,zone-a` spells, with a comma between two. The first that
    /// holds: `TooManyTags` if there are more than 8, `BadTag` if one has no byte or more than 64,
    /// or a byte that does not print, a space or a square bracket, `TagsNotSorted` if they do not
    /// strictly ascend.
    pub fn parse(text: &str) -> Result<Tags, ParseError>
        ensures value { result ≡ tags_from text.now }
        ensures tags { IfOk result (AreTags (between_commas text.now)) }
    {
        let mut words: [&[u8]; 8] = [&[]; 8];
        let mut rest = text.as_bytes();
        for count in 0..8 {
            match split_comma(rest) {
                None => {
                    words[count] = rest;
                    return Tags::new(&words[..count + 1]);
                }
                Some((word, others)) => {
                    words[count] = word;
                    rest = others;
                }
            }
        }
        Err(ParseError::TooManyTags)
    }
}

/// What stands before the first comma, and what after it.
fn split_comma(text: &[u8]) -> Option<(&[u8], &[u8])>
    ensures { MatchOption result (between_commas text.now ≡ text.now ∷ []) (λ x. between_commas text.now ≡ x.0.now ∷ between_commas x.1.now) }
{
    for i in 0..text.len() {
        if text[i] == b',' {
            return Some((&text[..i], &text[i + 1..]));
        }
    }
    None
}
