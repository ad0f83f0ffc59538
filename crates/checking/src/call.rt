// What a check goes on with.
ghost use Rattle.std.specs.Prelude.{◌≡◌, ◌<◌, length, None};
ghost use Rattle.rules.specs.Catalogue.{faulty_input};

use rules::catalogue::Catalogue;

mod new;

// A text of some bytes, and a catalogue that is faulty at no input.
#[derive(Clone, Copy)]
pub struct Call<'a> {
    pub text: &'a [u8],
    pub catalogue: &'a Catalogue,
    ghost sound: { faulty_input catalogue.now ≡ None },
    ghost some: { 0 < length text.now },
}
