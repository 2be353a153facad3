// The fields of a line, one after the other.
//
//     let mut fields = Fields::of(line);
//     let code = fields.next();
//     let id = fields.next();
ghost use Rattle.std.specs.Prelude.{◌≡◌, ◌∷◌, ◌+◌, ◌<◌, length};
ghost use Rattle.text.specs.Field.{cut};

use crate::fields::{after, field};
use std::marker::Model;

// Those that are left: what stands behind the comma of the last one that was taken; none, where there was no comma. In a clause they are the fields.
#[derive(Drop)]
pub struct Fields<'a> {
    rest: Option<&'a [u8]>,
}

impl<'a> Model for Fields<'a> {
    ghost use Rattle.text.specs.Byte.{Bytes};
    ghost use Rattle.std.specs.Prelude.{List};
    ghost use Rattle.text.specs.Field.{left_in};

    ghost Value = { List Bytes };

    ghost view = { λ f. left_in f.rest };
}

impl<'a> Fields<'a> {
    pub fn of(line: &'a [u8]) -> Fields<'a>
        ensures { result ≡ cut line.now }
    {
        Fields { rest: Some(line) }
    }

    // The next field, which is there. No `Iterator`: a row's number of fields is tested before they are taken, and an Option would be refused again.
    pub fn next(&mut self) -> &'a [u8]
        requires { 0 < length self.old }
        ensures taken { self.old ≡ result.now ∷ self.new }
        ensures count { length self.old ≡ length self.new + 1 }
    {
        let rest = self.rest.unwrap();
        let first = field(rest);
        if first.len() == rest.len() {
            self.rest = None;
            return first;
        }
        self.rest = Some(after(rest, first));
        first
    }
}
