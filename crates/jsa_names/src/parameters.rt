//! The parameters of a method one after the other (JVMS 4.3.3).
ghost use Rattle.std.specs.Iterator.{YieldsFirstBy, item_count};
ghost use Rattle.jsa_names.specs.Types.{field_shown};

use crate::descriptors::first_type;
use crate::types::FieldType;
use std::marker::Model;

/// The types of the parameters of a method, in their order. Contracts see it as the list of those that are left.
#[derive(Debug, Drop)]
pub struct Parameters<'a> {
    // The bytes from the descriptor of the next one on.
    pub(crate) rest: &'a [u8],
}

impl<'a> Model for Parameters<'a> {
    ghost use Rattle.std.specs.Prelude.{List};
    ghost use Rattle.jsa_names.specs.Types.{JavaType, front_types};

    ghost Value = { List JavaType };

    ghost view = { λ p. front_types p.rest.now };
}

impl<'a> Iterator for Parameters<'a> {
    type Item = FieldType<'a>;

    ghost next_gives = { YieldsFirstBy field_shown (λ left. left) };

    ghost remaining = { item_count (λ left. left) };

    fn next(&mut self) -> Option<FieldType<'a>> {
        let Some((first, rest)) = first_type(self.rest) else {
            return None;
        };
        self.rest = rest;
        Some(first)
    }
}
