// The texts of identifiers.

ghost use Rattle.std.specs.Prelude.{◌≡◌, Some};
ghost use Rattle.rapid_endpoint.specs.Texts.{identifier_from};

use crate::{ParseError, ProcessId};
use std::fmt;
use uuid::Uuid;

impl ProcessId {
    /// The identifier that the text of a UUID spells, in each of the forms that `uuid` reads:
    /// hyphenated, simple, braced and URN, in either case.
    ///
    /// Errors: `BadIdentifier` if the text is no UUID.
    pub fn parse(text: &str) -> Result<ProcessId, ParseError>
        ensures { result ≡ identifier_from text.now }
    {
        match Uuid::try_parse(text) {
            Ok(uuid) => Ok(ProcessId::new(uuid.into_bytes())),
            Err(_) => Err(ParseError::BadIdentifier),
        }
    }
}

impl fmt::Display for ProcessId {
    ghost use Rattle.uuid.specs.Text.{hyphenated_text, lower};

    ghost output = { λ id. Some (hyphenated_text lower id) };

    fn fmt<W: fmt::Write>(&self, f: &mut fmt::Formatter<W>) -> fmt::Result {
        Uuid::from_bytes(self.bytes()).fmt(f)
    }
}

impl fmt::Debug for ProcessId {
    fn fmt<W: fmt::Write>(&self, f: &mut fmt::Formatter<W>) -> fmt::Result {
        write!(f, "{self}")
    }
}
