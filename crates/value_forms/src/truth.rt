//! Words of true and false that a column of CSVW has no format for.
ghost use Rattle.std.specs.Prelude.{◌≡◌};
ghost use Rattle.value_forms.specs.Truths.{word_truth};

/// A word of true and one of false.
#[derive(Clone, Copy)]
pub struct TruthWords<'a> {
    pub of_true: &'a str,
    pub of_false: &'a str,
}

/// Pairs of words in German, French, Spanish, Italian and of switches.
pub const TRUTHS: [(&str, &str); 14] = [
    ("ja", "nein"),
    ("Ja", "Nein"),
    ("JA", "NEIN"),
    ("wahr", "falsch"),
    ("WAHR", "FALSCH"),
    ("oui", "non"),
    ("Oui", "Non"),
    ("vrai", "faux"),
    ("VRAI", "FAUX"),
    ("si", "no"),
    ("vero", "falso"),
    ("VERO", "FALSO"),
    ("on", "off"),
    ("ON", "OFF"),
];

/// Returns `true` for the word of true, `false` for the word of false, and `None` for any other text.
pub fn truth_text(words: TruthWords<'_>, text: &[u8]) -> Option<bool>
    ensures { result ≡ word_truth words.entry.of_true.now words.entry.of_false.now text.now }
{
    if words.of_true.as_bytes() == text {
        Some(true)
    } else if words.of_false.as_bytes() == text {
        Some(false)
    } else {
        None
    }
}
