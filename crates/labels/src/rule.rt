// The rule of the Devicetree Specification for a label, by bytes: letters, digits and underscores, and no leading
// digit.
ghost use Rattle.std.specs.Prelude.{◌≡◌, ◌||◌};
ghost use Rattle.definitions.specs.Strict.{is_letter, is_digit, in_label, keeps_rule};
ghost use Rattle.labels.specs.Model.{breaks};

use layout::word;

fn is_letter(byte: u8) -> bool
    ensures { result ≡ is_letter byte }
{
    byte.is_ascii_alphabetic() || byte == b'_'
}

// Most bytes of a name are small letters. Tested first, and apart, they cost two thirds of what they cost otherwise.
fn is_letter_or_digit(byte: u8) -> bool
    ensures { result ≡ (is_letter byte || is_digit byte) }
{
    if byte.is_ascii_lowercase() {
        return true;
    }
    is_letter(byte) || byte.is_ascii_digit()
}

fn in_label(bytes: &[u8]) -> bool
    ensures { result ≡ in_label bytes.now }
{
    bytes.iter().all(|byte| is_letter_or_digit(*byte))
}

pub fn keeps_rule(name: &[u8]) -> bool
    ensures { result ≡ keeps_rule name.now }
{
    match name {
        [] => true,
        [first, others @ ..] => is_letter(*first) && in_label(others),
    }
}

// Whether the bytes of a range break the rule; a range that is not in the input does not.
pub fn breaks_rule(bytes: &[u8], start: u32, end: u32) -> bool
    ensures { result ≡ breaks bytes.now start end }
{
    match bytes.get(word::wide(start)..word::wide(end)) {
        Some(name) => !keeps_rule(name),
        None => false,
    }
}
