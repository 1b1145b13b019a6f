// The words of a call, by their places.
ghost use Rattle.std.specs.Prelude.{◌≡◌, IfOk, codes, map, option_map, string_bytes, true};
ghost use Rattle.clap.specs.Words.{first_value, found_of};
ghost use Rattle.nvm_words.specs.Fields.{places_of, places_found, shown};
ghost use Rattle.nvm_words.specs.Words.{are_words};

use crate::grammar::line;
use clap::ArgMatches;
use clap::error::ErrorKind;
use std::alloc::{AllocError, Global};

/// The words of a call: the image, the command, and what stands behind it.
#[derive(Clone, Copy)]
pub(crate) struct Fields<'a> {
    pub image: &'a str,
    pub command: &'a str,
    pub third: Option<&'a str>,
    pub fourth: Option<&'a str>,
}

// The words that a parse found.
fn fields_in<'a>(matches: &ArgMatches<'a>) -> Option<Fields<'a>>
    ensures { option_map shown result ≡ places_found (first_value (found_of matches.now) (codes "IMAGE")) (first_value (found_of matches.now) (codes "COMMAND")) (first_value (found_of matches.now) (codes "THIRD")) (first_value (found_of matches.now) (codes "FOURTH")) }
{
    Some(Fields {
        image: matches.get_str("IMAGE")?,
        command: matches.get_str("COMMAND")?,
        third: matches.get_str("THIRD"),
        fourth: matches.get_str("FOURTH"),
    })
}

/// Two to four words by their places. None exactly where they are fewer or more.
pub(crate) fn read_fields<'a>(
    alloc: Global,
    words: &'a [String],
) -> Result<Option<Fields<'a>>, AllocError>
    requires { are_words (map string_bytes words.now) ≡ true }
    ensures { IfOk result (λ f. option_map shown f ≡ places_of (map string_bytes words.now)) }
{
    match line(alloc)?.try_get_matches_from(words) {
        Ok(matches) => Ok(fields_in(&matches)),
        Err(error) => match error.kind() {
            ErrorKind::OutOfMemory => Err(AllocError),
            _ => Ok(None),
        },
    }
}
