// Decimal digits: how a number is written with them and read from them. Renders the digits of the
// label's length field and the numbers that document 01's list program prints, without leading
// zeros. What stands around a number is left to the crates above.
#![tactic(auto)]

ghost use Rattle.std.specs.Prelude.{ℕ, ◌≡◌, ◌+◌, ◌%◌, ◌≤◌, List, length};
ghost use Rattle.text.specs.Decimal.{decimal_text};

use std::marker::Model;

// A number's text, which contracts see as the list of its bytes. What stands before `first` is `0` all through, so that
// the text gives the fields back and a numeral may be copied. (Fixed memory: the project has no heap, and so no `String`.)
#[derive(Clone, Copy)]
pub struct Numeral {
    digits: [u8; 20],
    first: usize,
}

impl Model for Numeral {
    ghost use Rattle.std.proofs.Common.{◌≡◌, ℕ, ◌-◌, ◌<◌, List, ◌++◌, length, take, drop, replicate, ◌∙◌, sym, ap, arith, take-append-drop};
    ghost use Rattle.std.proofs.lemmas.List.{length-drop};

    ghost Value = { List ℕ };

    ghost view = { λ numeral. drop numeral.first numeral.digits };

    ghost invariant = { λ numeral. (numeral.first < 20) × (length numeral.digits ≡ 20)
        × (take numeral.first numeral.digits ≡ replicate numeral.first 48) };

    ghost inverse = { λ text. record { digits = replicate (20 - length text) 48 ++ text; first = 20 - length text } };

    ghost inverse_ok = { λ a h i.
        let first : 20 - length (drop a.first a.digits) ≡ a.first = omega (arith, h.0, h.1, length-drop a.first a.digits) in
        record {
          digits = (ap (λ (k : ℕ). replicate k 48 ++ drop a.first a.digits) first
              ∙ ap (λ (front : List ℕ). front ++ drop a.first a.digits) (sym h.2)
              ∙ take-append-drop a.first a.digits) i;
          first = first i;
        } };
}

impl Numeral {
    pub fn digits(&self) -> &[u8]
        ensures text { result.now ≡ self.now }
        ensures short { length result.now ≤ 20 }
    {
        &self.digits[self.first..]
    }
}

// The character of a number's last decimal digit. (By hand: `Display` wants a `fmt::Write`
// of one's own to write to, with its ghost output, and is no plainer.)
pub fn last_digit(n: usize) -> u8
    ensures { result ≡ 48 + n % 10 }
{
    b'0' + (n % 10) as u8
}

// The decimal text of a number: the last digit, then before it a digit for each ten that is left. How
// many turns that takes is not known before: a `for` is no plainer.
pub fn decimal(n: usize) -> Numeral
    ensures { result ≡ decimal_text n }
{
    let mut digits = [b'0'; 20];
    let mut first = 19;
    digits[first] = last_digit(n);
    let mut rest = n / 10;
    while rest > 0 {
        first -= 1;
        digits[first] = last_digit(rest);
        rest /= 10;
    }
    Numeral { digits, first }
}
