// Making names and reading them.
ghost use Rattle.std.specs.Prelude.{◌≡◌, Some, true, option_map};
ghost use Rattle.std.specs.List.{list_all};
ghost use Rattle.std.specs.Str.{bytes_eq};
ghost use Rattle.terms.specs.Names.{is_small, may_follow, well_formed, name_of};
ghost use Rattle.terms.specs.Views.{bytes_of};

use super::{LONGEST_NAME, Name};
use crate::row::Row;
use std::{fmt, str};

impl Name {
    // These bytes as a name, if they are well formed.
    pub fn new(bytes: &[u8]) -> Option<Name>
        ensures { option_map bytes_of result ≡ name_of bytes.now }
    {
        is_well_formed(bytes).then(|| Name::known(bytes))
    }

    // Bytes that are well formed, as a name.
    pub(crate) fn known(bytes: &[u8]) -> Name
        requires { well_formed bytes.now ≡ true }
        ensures { bytes_of result ≡ bytes.now }
    {
        let mut kept = Row::new(0);
        kept.extend(bytes);
        Name { bytes: kept }
    }

    // The bytes of the name.
    pub fn as_bytes(&self) -> &[u8]
        ensures { result.now ≡ bytes_of self.now }
    {
        self.bytes.as_slice()
    }

    // Whether the name is these bytes.
    // No `==`: what is asked for comes as bytes, of which no name may be made.
    pub(crate) fn is(&self, bytes: &[u8]) -> bool
        ensures { result ≡ bytes_eq (bytes_of self.now) bytes.now }
    {
        self.as_bytes() == bytes
    }
}

impl fmt::Display for Name {
    ghost output = { λ name. Some (bytes_of name) };

    fn fmt<W: fmt::Write>(&self, f: &mut fmt::Formatter<W>) -> fmt::Result {
        // The bytes are letters and digits, so they are text.
        f.write_str(str::from_utf8(self.as_bytes()).map_err(|_| fmt::Error)?)
    }
}

fn is_well_formed(bytes: &[u8]) -> bool
    ensures { result ≡ well_formed bytes.now }
{
    let [first, rest @ ..] = bytes else {
        return false;
    };
    bytes.len() <= LONGEST_NAME && is_small(*first) && all_follow(rest)
}

fn all_follow(bytes: &[u8]) -> bool
    ensures { result ≡ list_all may_follow bytes.now }
{
    bytes.iter().all(|byte| may_follow(*byte))
}

fn is_small(byte: u8) -> bool
    ensures { result ≡ is_small byte }
{
    byte.is_ascii_lowercase()
}

fn may_follow(byte: u8) -> bool
    ensures { result ≡ may_follow byte }
{
    is_small(byte) || byte.is_ascii_digit()
}
