// The names of the calls.
ghost use Rattle.call_list.specs.Lines.{Names};

use crate::expected::Expected;

#[derive(Clone, Copy)]
pub(crate) enum Name {
    Insert,
    Delete,
    Length,
    Capacity,
    Byte,
    Copy,
}

impl<'a> TryFrom<&'a [u8]> for Name {
    type Error = Expected;

    ghost try_from_gives = { λ word r. Names r word.now };

    fn try_from(word: &'a [u8]) -> Result<Name, Expected> {
        match word {
            b"insert" => Ok(Name::Insert),
            b"delete" => Ok(Name::Delete),
            b"length" => Ok(Name::Length),
            b"capacity" => Ok(Name::Capacity),
            b"byte" => Ok(Name::Byte),
            b"copy" => Ok(Name::Copy),
            _ => Err(Expected::Call),
        }
    }
}
