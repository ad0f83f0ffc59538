// Four amounts, one for each input of a query.
ghost use Rattle.std.specs.Prelude.{◌≡◌, ℕ, ◌<◌, ◌≤◌, true, Some};
ghost use Rattle.rules.specs.Amounts.{added, amount_at, at_most, one_at, printed, times};
ghost use Rattle.rules.specs.Typing.{sensitivity_bound};

use std::fmt;

// Inputs 0 and 1 are the sources, 2 and 3 the settings.
#[derive(Clone, Copy, PartialEq, Eq, Debug)]
pub struct Amounts {
    pub source_0: u64,
    pub source_1: u64,
    pub setting_0: u64,
    pub setting_1: u64,
}

impl Amounts {
    pub const NONE: Amounts = Amounts {
        source_0: 0,
        source_1: 0,
        setting_0: 0,
        setting_1: 0,
    };

    // The amount at an input, 0 where there is none.
    pub fn at(self, input: usize) -> u64
        ensures { result ≡ amount_at self input }
    {
        match input {
            0 => self.source_0,
            1 => self.source_1,
            2 => self.setting_0,
            3 => self.setting_1,
            _ => 0,
        }
    }

    // What `f` gives for each input.
    fn from_fn<F: Fn(usize) -> u64>(f: F) -> Amounts
        requires { (i : ℕ) → i < 4 → F.pre f i }
        ensures { (i : ℕ) → i < 4 → F.post f i (amount_at result i) }
    {
        Amounts {
            source_0: f(0),
            source_1: f(1),
            setting_0: f(2),
            setting_1: f(3),
        }
    }

    // 1 at an input.
    pub fn one_at(input: usize) -> Amounts
        ensures { result ≡ one_at input }
    {
        Amounts::from_fn(|i| u64::from(i == input))
    }

    // The sum at each input.
    pub fn added(self, other: Amounts) -> Amounts
        requires first { at_most sensitivity_bound self ≡ true }
        requires second { at_most sensitivity_bound other ≡ true }
        ensures { result ≡ added self other }
    {
        Amounts::from_fn(|input| self.at(input) + other.at(input))
    }

    // The multiple at each input. Factors come from literals and from amounts: no one type holds both.
    pub fn times(self, factor: u64) -> Amounts
        requires factor { factor ≤ sensitivity_bound }
        requires amounts { at_most sensitivity_bound self ≡ true }
        ensures { result ≡ times factor self }
    {
        Amounts::from_fn(|input| factor * self.at(input))
    }

    // This and so many times the other, at each input.
    pub fn with_times(self, factor: u64, other: Amounts) -> Amounts
        requires own { at_most sensitivity_bound self ≡ true }
        requires factor { factor ≤ sensitivity_bound }
        requires other { at_most sensitivity_bound other ≡ true }
        ensures { result ≡ added self (times factor other) }
    {
        Amounts::from_fn(|input| self.at(input) + factor * other.at(input))
    }

    // Whether none is above the bound.
    pub fn are_at_most(self, bound: u64) -> bool
        ensures { result ≡ at_most bound self }
    {
        (0..4).all(|input| self.at(input) <= bound)
    }
}

// As `1 0 0 2`, in the order of the inputs.
impl fmt::Display for Amounts {
    ghost output = { λ a. Some (printed a) };

    fn fmt<W: fmt::Write>(&self, f: &mut fmt::Formatter<W>) -> fmt::Result {
        write!(
            f,
            "{} {} {} {}",
            self.source_0, self.source_1, self.setting_0, self.setting_1
        )
    }
}
