// Whether a check can go on with a text and a catalogue.
ghost use Rattle.std.specs.Prelude.{◌≡◌, IfOk};
ghost use Rattle.checking.specs.Check.{call_fault};
ghost use Rattle.checking.specs.Faults.{fault_in};

use super::Call;
use crate::check::MAX_TEXT;
use crate::fault::CheckFault;
use rules::catalogue::Catalogue;

impl<'a> Call<'a> {
    // The catalogue is looked at before the size of the text.
    pub fn new(text: &'a [u8], catalogue: &'a Catalogue) -> Result<Call<'a>, CheckFault>
        ensures fault { fault_in result ≡ call_fault catalogue.now text.now }
        ensures call { IfOk result (λ c. (c.text.now ≡ text.now) × (c.catalogue.now ≡ catalogue.now)) }
    {
        if let Some(input) = catalogue.faulty_input() {
            return Err(CheckFault::Catalogue { input });
        }
        if text.len() > MAX_TEXT {
            return Err(CheckFault::TooLong);
        }
        if text.is_empty() {
            return Err(CheckFault::NoText);
        }
        Ok(Call { text, catalogue })
    }
}
