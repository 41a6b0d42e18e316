//! A checked template: no value of it exists whose bytes break a rule of the packed tree.

ghost use Rattle.std.specs.Prelude.{◌≡◌, true};
ghost use Rattle.checker.specs.Whole.{unpacks};

pub mod access;

#[derive(Clone, Copy)]
pub struct Template<'a> {
    source: &'a [u8],
    tree: &'a [u8],
    ghost ok: { unpacks source.now tree.now ≡ true },
}
